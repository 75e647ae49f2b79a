ghost use Rattle.std.specs.Prelude.{◌≡◌, true};
ghost use Rattle.member_sets.specs.Members.{has_member};

use crate::members::Members;

/// A set with a member.
#[derive(Clone, Copy, PartialEq, Eq, Debug)]
pub struct SetKey {
    pub(crate) members: Members,
    ghost some: { has_member members ≡ true },
}

/// A question about sets; its set may be empty.
#[derive(Clone, Copy)]
pub enum SetQuery {
    HasAll(Members),
    SharesMember(Members),
    LiesWithin(Members),
}
