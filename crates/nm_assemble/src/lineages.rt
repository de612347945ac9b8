ghost use Rattle.std.specs.Prelude.{◌↔◌, IsTrue};
ghost use Rattle.nm_assemble.specs.Lineages.{GoesOnFrom, IsAncestor, IsOfSave, LeadsTo};

use nm_superblock::Superblock;

/// Whether the new superblock came after the old one, or is of its save: nothing of the old one was
/// left out.
pub(crate) fn leads_to(old: &Superblock, new: &Superblock) -> bool
    ensures { IsTrue result ↔ LeadsTo old.now new.now }
{
    goes_on_from(old, new) || is_ancestor(old, new)
}

// Whether the new one is of a later save of one lineage, or of the same save.
fn goes_on_from(old: &Superblock, new: &Superblock) -> bool
    ensures { IsTrue result ↔ GoesOnFrom old.now new.now }
{
    let later = old.lineages[0] == new.lineages[0] && old.generation < new.generation;
    later || is_of_save(old, new)
}

// Whether both are of one save, and so differ in their leg alone.
fn is_of_save(old: &Superblock, new: &Superblock) -> bool
    ensures { IsTrue result ↔ IsOfSave old.now new.now }
{
    let mut copy = *old;
    copy.leg = new.leg;
    copy == *new
}

// Whether the new one's lineage descends from the old one's, and the old one was found when its
// descendant began.
fn is_ancestor(old: &Superblock, new: &Superblock) -> bool
    ensures { IsTrue result ↔ IsAncestor old.now new.now }
{
    if old.lineages[0] == 0 {
        return false;
    }
    'lineages: for i in 0..3 {
        if new.lineages[i + 1] == old.lineages[0] && old.generation <= new.forks[i] {
            return true;
        }
    }
    false
}
