//! What can be set, and what a configuration consists of.
use config_terms::{Attr, Fs, IpType, Net, Rctl};
use zn_base::{AbsPath, Listing, Text};

/// A property of the global scope that is kept as it stands (zonecfg(8), PROPERTIES), in the order in
/// which they are printed.
#[derive(Clone, Copy, Debug, PartialEq, Eq)]
pub enum Property {
    Zonepath,
    Brand,
    Autoboot,
    Bootargs,
    Pool,
    Limitpriv,
    SchedulingClass,
    IpType,
    Hostid,
    FsAllowed,
}

/// A property of the global scope that is another name of an rctl with one value: `zone.cpu-shares`,
/// `zone.max-lwps` or `zone.max-processes` (zonecfg(8), PROPERTIES).
#[derive(Clone, Copy, Debug, PartialEq, Eq)]
pub enum Alias {
    CpuShares,
    MaxLwps,
    MaxProcesses,
}

/// What a name of the global scope stands for.
#[derive(Clone, Copy, Debug, PartialEq, Eq)]
pub enum Setting {
    Kept(Property),
    Aliased(Alias),
}

/// The properties of a configuration, and its resources by their kind. An empty text is a property that is
/// not set.
pub struct Contents {
    pub zonepath: Option<AbsPath>,
    pub brand: Text,
    pub autoboot: bool,
    pub bootargs: Text,
    pub pool: Text,
    pub limitpriv: Text,
    pub class: Text,
    pub ip: IpType,
    pub hostid: Text,
    pub fs_allowed: Text,
    pub fs: Listing<Fs>,
    pub net: Listing<Net>,
    pub device: Listing<Text>,
    pub rctl: Listing<Rctl>,
    pub attr: Listing<Attr>,
    pub dataset: Listing<Text>,
}

// In one step, so that a function that holds a configuration has one for it at each of its exits.
impl Drop for Contents {
    fn drop(self) {
        let Contents {
            zonepath: _,
            brand: _,
            autoboot: _,
            bootargs: _,
            pool: _,
            limitpriv: _,
            class: _,
            ip: _,
            hostid: _,
            fs_allowed: _,
            fs: _,
            net: _,
            device: _,
            rctl: _,
            attr: _,
            dataset: _,
        } = self;
    }
}
