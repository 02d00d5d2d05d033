//! Resources of each kind, as the tables see them.
ghost use Rattle.std.specs.Prelude.{◌≡◌, ◌≤◌, List, ℕ, [], length};
ghost use Rattle.config_terms.specs.declared.fields.Field.{Field};
ghost use Rattle.config_terms.specs.declared.terms.Limit.{Limit};
ghost use Rattle.config_terms.specs.Fields.{path_text, fs_shown, net_shown, text_shown, rctl_shown, attr_shown, resource_shown, resource_options, resource_values};

use crate::kinds::each_kind;
use crate::texts::bytes_of;
use crate::{Attr, Field, Fs, Limit, Net, Rctl, Resource};
use zn_base::{AbsPath, Text};

/// What the tables say of a resource: what each simple property shows, and the items of its list.
pub trait Entry {
    ghost shown: { Self → Field → List ℕ };

    ghost options: { Self → List (List ℕ) };

    ghost values: { Self → List Limit };

    /// The text of a simple property: nothing where it is not set, or is one of another kind.
    fn shown(&self, field: Field) -> &[u8]
        ensures same { result.now ≡ shown self.now field }
        ensures short { length result.now ≤ 4200 };

    /// The options, which an fs alone may have.
    fn options(&self) -> &[Text]
        ensures same { result.now ≡ options self.now }
        ensures bound { length result.now ≤ 4294967295 };

    /// The values, which an rctl alone may have.
    fn values(&self) -> &[Limit]
        ensures same { result.now ≡ values self.now }
        ensures bound { length result.now ≤ 4294967295 };
}

/// The text of a path: nothing where there is none.
#[tactic(auto, using(crate::proofs::Short::path_short))]
pub fn path_text(path: &Option<AbsPath>) -> &[u8]
    ensures same { result.now ≡ path_text path.now }
    ensures short { length result.now ≤ 4200 }
{
    match path {
        None => b"",
        Some(path) => path.bytes(),
    }
}

impl Entry for Fs {
    ghost shown = { fs_shown };

    ghost options = { λ f. f.options };

    ghost values = { λ f. [] };

    fn shown(&self, field: Field) -> &[u8] {
        match field {
            Field::FsDir => path_text(&self.dir),
            Field::FsSpecial => bytes_of(&self.special),
            Field::FsRaw => bytes_of(&self.raw),
            Field::FsType => bytes_of(&self.fstype),
            _ => b"",
        }
    }

    fn options(&self) -> &[Text] {
        self.options.as_slice()
    }

    fn values(&self) -> &[Limit] {
        &[]
    }
}

impl Entry for Net {
    ghost shown = { net_shown };

    ghost options = { λ n. [] };

    ghost values = { λ n. [] };

    fn shown(&self, field: Field) -> &[u8] {
        match field {
            Field::NetAddress => bytes_of(&self.address),
            Field::NetAllowed => bytes_of(&self.allowed),
            Field::NetPhysical => bytes_of(&self.physical),
            Field::NetDefrouter => bytes_of(&self.defrouter),
            _ => b"",
        }
    }

    fn options(&self) -> &[Text] {
        &[]
    }

    fn values(&self) -> &[Limit] {
        &[]
    }
}

/// A device or a dataset: the text of its one property.
impl Entry for Text {
    ghost shown = { text_shown };

    ghost options = { λ t. [] };

    ghost values = { λ t. [] };

    fn shown(&self, _: Field) -> &[u8] {
        bytes_of(self)
    }

    fn options(&self) -> &[Text] {
        &[]
    }

    fn values(&self) -> &[Limit] {
        &[]
    }
}

impl Entry for Rctl {
    ghost shown = { rctl_shown };

    ghost options = { λ r. [] };

    ghost values = { λ r. r.values };

    fn shown(&self, field: Field) -> &[u8] {
        match field {
            Field::RctlName => bytes_of(&self.name),
            _ => b"",
        }
    }

    fn options(&self) -> &[Text] {
        &[]
    }

    fn values(&self) -> &[Limit] {
        self.values.as_slice()
    }
}

impl Entry for Attr {
    ghost shown = { attr_shown };

    ghost options = { λ a. [] };

    ghost values = { λ a. [] };

    fn shown(&self, field: Field) -> &[u8] {
        match field {
            Field::AttrName => bytes_of(&self.name),
            Field::AttrType => bytes_of(&self.form),
            Field::AttrValue => bytes_of(&self.value),
            _ => b"",
        }
    }

    fn options(&self) -> &[Text] {
        &[]
    }

    fn values(&self) -> &[Limit] {
        &[]
    }
}

macro_rules! shown_arms {
    (($resource:expr, $field:expr), $($name:ident $type:ident $put:ident),*) => {
        match $resource {
            $(Resource::$name(entry) => entry.shown($field),)*
        }
    };
}

impl Entry for Resource {
    ghost shown = { resource_shown };

    ghost options = { resource_options };

    ghost values = { resource_values };

    fn shown(&self, field: Field) -> &[u8] {
        each_kind!(shown_arms, (self, field))
    }

    fn options(&self) -> &[Text] {
        match self {
            Resource::Fs(fs) => fs.options.as_slice(),
            _ => &[],
        }
    }

    fn values(&self) -> &[Limit] {
        match self {
            Resource::Rctl(rctl) => rctl.values.as_slice(),
            _ => &[],
        }
    }
}
