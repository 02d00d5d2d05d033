//! The tables of resources: kinds, and their simple properties with names and rules.
ghost use Rattle.std.specs.Prelude.{◌≡◌, ◌≤◌, length, Some};
ghost use Rattle.std.specs.Option.{option_map};
ghost use Rattle.config_terms.specs.Fields.{kind_name, kind_named, field_name, field_rule, fields_of, list_name, key_field, field_named, is_name_of_list, named};

use crate::{Kind, Rule};

/// The simple properties of resources (zonecfg(8), PROPERTIES), by kind.
#[derive(Clone, Copy, PartialEq, Eq)]
pub enum Field {
    FsDir,
    FsSpecial,
    FsRaw,
    FsType,
    NetAddress,
    NetAllowed,
    NetPhysical,
    NetDefrouter,
    DeviceMatch,
    RctlName,
    AttrName,
    AttrType,
    AttrValue,
    DatasetName,
}

/// What a name stands for in a resource: one simple property, or the list of many items, which are the
/// options of an fs or the values of an rctl.
#[derive(Clone, Copy)]
pub enum Named {
    One(Field),
    Many,
}

impl Field {
    /// The property's name.
    pub fn name(self) -> &'static [u8]
        ensures same { result.now ≡ field_name self }
        ensures short { length result.now ≤ 15 }
    {
        match self {
            Field::FsDir => b"dir",
            Field::FsSpecial => b"special",
            Field::FsRaw => b"raw",
            Field::FsType | Field::AttrType => b"type",
            Field::NetAddress => b"address",
            Field::NetAllowed => b"allowed-address",
            Field::NetPhysical => b"physical",
            Field::NetDefrouter => b"defrouter",
            Field::DeviceMatch => b"match",
            Field::RctlName | Field::AttrName | Field::DatasetName => b"name",
            Field::AttrValue => b"value",
        }
    }

    /// What its value may be.
    pub fn rule(self) -> Rule
        ensures { result ≡ field_rule self }
    {
        match self {
            Field::FsDir => Rule::RootedPath,
            Field::FsType => Rule::TypeWord,
            Field::RctlName => Rule::ControlName,
            Field::AttrName => Rule::AttributeName,
            Field::AttrType => Rule::AttributeForm,
            Field::FsSpecial
            | Field::FsRaw
            | Field::NetAddress
            | Field::NetAllowed
            | Field::NetPhysical
            | Field::NetDefrouter
            | Field::DeviceMatch
            | Field::AttrValue
            | Field::DatasetName => Rule::Simple,
        }
    }
}

/// All kinds of resources, in the order in which they are shown and printed (zonecfg(8), RESOURCES).
pub const KINDS: [Kind; 6] = [
    Kind::Fs,
    Kind::Net,
    Kind::Device,
    Kind::Rctl,
    Kind::Attr,
    Kind::Dataset,
];

// What the tables say of a kind.
#[derive(Clone, Copy)]
struct KindRow {
    name: &'static [u8],
    fields: &'static [Field],
    key: Option<Field>,
    list_name: Option<&'static [u8]>,
}

impl Kind {
    #[inline(always)]
    fn row(self) -> KindRow
        ensures name { result.name.now ≡ kind_name self }
        ensures short { length result.name.now ≤ 7 }
        ensures fields { result.fields.now ≡ fields_of self }
        ensures few { length result.fields.now ≤ 4 }
        ensures key { result.key ≡ key_field self }
        ensures list_name { option_map (λ name. name.now) result.list_name ≡ list_name self }
    {
        match self {
            Kind::Fs => KindRow {
                name: b"fs",
                fields: &[Field::FsDir, Field::FsSpecial, Field::FsRaw, Field::FsType],
                key: None,
                list_name: Some(b"options"),
            },
            Kind::Net => KindRow {
                name: b"net",
                fields: &[
                    Field::NetAddress,
                    Field::NetAllowed,
                    Field::NetPhysical,
                    Field::NetDefrouter,
                ],
                key: None,
                list_name: None,
            },
            Kind::Device => KindRow {
                name: b"device",
                fields: &[Field::DeviceMatch],
                key: Some(Field::DeviceMatch),
                list_name: None,
            },
            Kind::Rctl => KindRow {
                name: b"rctl",
                fields: &[Field::RctlName],
                key: Some(Field::RctlName),
                list_name: Some(b"value"),
            },
            Kind::Attr => KindRow {
                name: b"attr",
                fields: &[Field::AttrName, Field::AttrType, Field::AttrValue],
                key: Some(Field::AttrName),
                list_name: None,
            },
            Kind::Dataset => KindRow {
                name: b"dataset",
                fields: &[Field::DatasetName],
                key: Some(Field::DatasetName),
                list_name: None,
            },
        }
    }

    /// The kind's name.
    pub fn name(self) -> &'static [u8]
        ensures same { result.now ≡ kind_name self }
        ensures short { length result.now ≤ 7 }
    {
        self.row().name
    }

    /// The kind that has a name.
    pub fn with_name(name: &[u8]) -> Option<Kind>
        ensures { result ≡ kind_named name.now }
    {
        KINDS.iter().copied().find(|kind| name == kind.name())
    }

    /// Its simple properties, in the order in which they are printed.
    pub fn fields(self) -> &'static [Field]
        ensures same { result.now ≡ fields_of self }
        ensures few { length result.now ≤ 4 }
    {
        self.row().fields
    }

    /// The property by which two resources of the kind are told apart, if there is one.
    pub fn key(self) -> Option<Field>
        ensures { result ≡ key_field self }
    {
        self.row().key
    }

    /// The name of the property that is a list, if the kind has one.
    pub fn list_name(self) -> Option<&'static [u8]>
        ensures { option_map (λ name. name.now) result ≡ list_name self }
    {
        self.row().list_name
    }

    /// The simple property of the kind that has a name.
    pub fn field(self, name: &[u8]) -> Option<Field>
        ensures { result ≡ field_named self name.now }
    {
        self.fields()
            .iter()
            .copied()
            .find(|field| name == field.name())
    }

    fn is_list_name(self, name: &[u8]) -> bool
        ensures { result ≡ is_name_of_list (list_name self) name.now }
    {
        match self.list_name() {
            None => false,
            Some(own) => name == own,
        }
    }

    /// What a name stands for in a resource of the kind.
    pub fn named(self, name: &[u8]) -> Option<Named>
        ensures { result ≡ named self name.now }
    {
        match self.field(name) {
            Some(field) => Some(Named::One(field)),
            None if self.is_list_name(name) => Some(Named::Many),
            None => None,
        }
    }
}
