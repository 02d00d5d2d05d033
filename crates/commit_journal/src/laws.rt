//! Laws of records, and of what they leave.
ghost use Rattle.commit_journal.specs.Bodies.{OneCommitABody};
ghost use Rattle.commit_journal.specs.Store.{OpensStoreOneWay};
ghost use Rattle.commit_journal.specs.Stored.{AppliesOneByOne};

/// A law: one commit more leaves the zones stored before, with the commit applied to them. So records can be
/// applied one at a time.
pub fn applies_one_by_one()
    ensures { AppliesOneByOne }
{}

/// A law: at most one commit has a body.
pub fn one_commit_a_body()
    ensures { OneCommitABody }
{}

/// A law: opening an image as a store comes to at most one thing: its records and the zones that these leave,
/// or the first fault.
pub fn opens_store_one_way()
    ensures { OpensStoreOneWay }
{
    zone_disk::opens_one_way();
}
