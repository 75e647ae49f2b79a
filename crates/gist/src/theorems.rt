ghost use Rattle.gist.specs.Theorems.{InsertAdds, RemoveTakes, SearchFinds, WordsFix, LeastPages, LeastTable};
ghost use Rattle.gist.specs.Writes.{InsertWrites, RemoveEdits};

use key_class::KeyClass;

/// An insert, given as many new pages as it needs, adds its record, keeps the rules of the pages, adds just those pages,
/// and leaves all pages off its way as they are.
pub fn insert_adds<K: KeyClass>()
    ensures { InsertAdds K.class }
{}

/// A removal answers none exactly where there is no such record; else it takes that record away, keeps the rules of the
/// pages, gives back pages of the tree, and leaves all but two pages a level as they are.
pub fn remove_takes<K: KeyClass>()
    ensures { RemoveTakes K.class }
{}

/// What an insert writes, page by page and in order, is what `insert_writes` lists; all else is as `insert_adds` tells.
pub fn insert_lists_writes<K: KeyClass>()
    ensures { InsertWrites K.class }
{}

/// What a removal writes and gives back is what `remove_edits` lists; all else is as `remove_takes` tells.
pub fn remove_lists_edits<K: KeyClass>()
    ensures { RemoveEdits K.class }
{}

/// A search finds the records that match, each once, in their order, and nothing else.
pub fn search_finds<K: KeyClass>()
    ensures { SearchFinds K.class }
{}

/// Two trees of one height on the same pages, with the same root, are equal.
pub fn words_fix_the_tree<K: KeyClass>()
    ensures { WordsFix K.class.growing }
{}

/// A tree within the rules has at least so many pages: 1, 3, 11, 43, 171, 683 and 2,731 with 1 to 7 levels.
pub fn least_pages_hold<K: KeyClass>()
    ensures bound { LeastPages K.class.growing }
    ensures table { LeastTable }
{}
