//! Laws of the form of a store.
ghost use Rattle.zone_disk.specs.Image.{StandsForOne, OpensOneWay};

/// A law: an image of a disk stands for at most one list of bodies.
pub fn stands_for_one()
    ensures { StandsForOne }
{}

/// A law: opening an image comes to at most one thing: its bodies, a first wrong offset or a bad record.
pub fn opens_one_way()
    ensures { OpensOneWay }
{}
