ghost use Rattle.std.specs.Prelude.{◌≡◌, ℕ, true, ◌||◌, refl};
ghost use Rattle.key_class.specs.Words.{of_four};
ghost use Rattle.member_sets.specs.Members.{member};
ghost use Rattle.member_sets.specs.Joining.{members_of};
ghost use Rattle.member_sets.specs.Sets.{covers, union, read_key, set_growing, set_class};
ghost use Rattle.member_sets.specs.declared.key.SetQuery.TheVariants.{HasAll, SharesMember, LiesWithin};
ghost use Rattle.member_sets.specs.Reading.{set_coded};
ghost use Rattle.key_class.proofs.Sharing.{quadratic_shares};
ghost use Rattle.member_sets.specs.Covering.{contains_itself, contains_through, either_first, either_second, held_above, match_above};

use crate::key::{SetKey, SetQuery};
use crate::members::Members;
use key_class::{Key, KeyClass, KeyRefusal, quadratic_split};

/// From the set's four words.
impl TryFrom<[u32; 4]> for SetKey {
    type Error = KeyRefusal;

    ghost try_from_gives = { λ words result. result ≡ of_four read_key words };

    fn try_from(words: [u32; 4]) -> Result<SetKey, KeyRefusal> {
        let members = Members::from(words);
        if members.is_empty() {
            return Err(KeyRefusal::NoMember);
        }
        Ok(SetKey { members })
    }
}

impl SetQuery {
    /// Which sets have all members of this one?
    pub fn has_all(words: &[u32; 4]) -> SetQuery
        ensures { result ≡ HasAll (of_four members_of words.now) }
    {
        SetQuery::HasAll(Members::from(*words))
    }

    /// Which sets share a member with this one?
    pub fn shares_member(words: &[u32; 4]) -> SetQuery
        ensures { result ≡ SharesMember (of_four members_of words.now) }
    {
        SetQuery::SharesMember(Members::from(*words))
    }

    /// Which sets lie within this one?
    pub fn lies_within(words: &[u32; 4]) -> SetQuery
        ensures { result ≡ LiesWithin (of_four members_of words.now) }
    {
        SetQuery::LiesWithin(Members::from(*words))
    }
}

impl Key for SetKey {
    ghost growing = { set_growing };

    ghost coded = { set_coded };

    // Beyond the interface: its members are those of either, and no smaller key covers both.
    fn union(&self, other: &SetKey) -> SetKey
        ensures value { result ≡ union self.now other.now }
        ensures members { (k : ℕ) → member result.members k ≡ (member self.now.members k || member other.now.members k) }
        ensures least { (u : SetKey) → covers u self.now ≡ true → covers u other.now ≡ true → covers u result ≡ true }
    {
        SetKey {
            members: self.members.either(&other.members),
        }
    }

    fn growth(&self, other: &SetKey) -> u64 {
        self.members.lacking(&other.members) as u64
    }

    fn squeeze(&self) -> [u32; 4] {
        self.members.into()
    }

    fn unsqueeze(words: &[u32; 4]) -> Option<SetKey> {
        SetKey::try_from(*words).ok()
    }
}

impl KeyClass for SetKey {
    type Query = SetQuery;

    ghost class = { set_class };

    ghost tied = { refl };

    ghost lawful = { record {
      covers_itself = λ a. contains_itself a.members;
      covers_through = λ a b c. contains_through a.members b.members c.members;
      union_covers_first = λ a b. either_first a.members b.members;
      union_covers_second = λ a b. either_second a.members b.members;
      may_hold_a_match = match_above;
      may_hold_above = held_above;
      splits = quadratic_shares set_growing;
    } };

    fn covers(&self, other: &SetKey) -> bool {
        self.members.contains(&other.members)
    }

    fn matches(&self, query: &SetQuery) -> bool {
        match query {
            SetQuery::HasAll(set) => self.members.contains(set),
            SetQuery::SharesMember(set) => self.members.shares(set),
            SetQuery::LiesWithin(set) => set.contains(&self.members),
        }
    }

    fn may_hold(&self, query: &SetQuery) -> bool {
        match query {
            SetQuery::HasAll(set) => self.members.contains(set),
            SetQuery::SharesMember(set) => self.members.shares(set),
            SetQuery::LiesWithin(set) => self.members.shares(set),
        }
    }

    fn pick_split(words: &[[u32; 4]]) -> [bool; 15] {
        quadratic_split::<SetKey>(words)
    }
}
