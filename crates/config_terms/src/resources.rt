//! Resources, and the edits of one.
ghost use Rattle.std.specs.Prelude.{◌≡◌, []};
ghost use Rattle.config_terms.specs.declared.fields.Field.TheVariants.{FsDir};
ghost use Rattle.config_terms.specs.Fields.{kind_of};
ghost use Rattle.config_terms.specs.Kinds.{attr_row, fs_row, net_row, rctl_row};
ghost use Rattle.config_terms.specs.Edits.{Changes, ChangesSurely, empty, kept_path, fs_with, net_with, device_with, rctl_with, attr_with, dataset_with, with_dir, with_field, field_set, fs_edited, rctl_edited, list_edited, without_list, put_in, cleared_in, edited_in, with_property, without_property, with_value, without_value};

use crate::given::{limit_given, options_given, path_kept};
use crate::kinds::each_kind;
use crate::lists::{ListEdit, edit_list, edit_options};
use crate::{Attr, ConfigFault, Field, Fs, Kind, Named, Net, Rctl, Resource};
use std::alloc::Global;
use zn_base::{AbsPath, Listing, Text, Value};

// A text in the place of a simple property. A dir has a place of its own: here it can be unset alone.
fn put_fs(fs: &mut Fs, field: Field, text: Text)
    requires { field ≡ FsDir → text ≡ [] }
    ensures { fs.new ≡ fs_with field text fs.old }
{
    match field {
        Field::FsDir => fs.dir = None,
        Field::FsSpecial => fs.special = text,
        Field::FsRaw => fs.raw = text,
        Field::FsType => fs.fstype = text,
        _ => {}
    }
}

fn put_net(net: &mut Net, field: Field, text: Text)
    ensures { net.new ≡ net_with field text net.old }
{
    match field {
        Field::NetAddress => net.address = text,
        Field::NetAllowed => net.allowed = text,
        Field::NetPhysical => net.physical = text,
        Field::NetDefrouter => net.defrouter = text,
        _ => {}
    }
}

fn put_device(device: &mut Text, field: Field, text: Text)
    ensures { device.new ≡ device_with field text device.old }
{
    if let Field::DeviceMatch = field {
        *device = text;
    }
}

fn put_rctl(rctl: &mut Rctl, field: Field, text: Text)
    ensures { rctl.new ≡ rctl_with field text rctl.old }
{
    if let Field::RctlName = field {
        rctl.name = text;
    }
}

fn put_attr(attr: &mut Attr, field: Field, text: Text)
    ensures { attr.new ≡ attr_with field text attr.old }
{
    match field {
        Field::AttrName => attr.name = text,
        Field::AttrType => attr.form = text,
        Field::AttrValue => attr.value = text,
        _ => {}
    }
}

fn put_dataset(dataset: &mut Text, field: Field, text: Text)
    ensures { dataset.new ≡ dataset_with field text dataset.old }
{
    if let Field::DatasetName = field {
        *dataset = text;
    }
}

macro_rules! put_arms {
    (($resource:expr, $field:expr, $text:expr), $($name:ident $type:ident $put:ident),*) => {
        match $resource {
            $(Resource::$name(entry) => $put(entry, $field, $text),)*
        }
    };
}

// One of which nothing is set, and the edits of its list; a device or a dataset is then the empty text.
impl Fs {
    fn empty(alloc: Global) -> Fs
        ensures { result ≡ fs_row.empty }
    {
        Fs {
            dir: None,
            special: Text::empty(alloc),
            raw: Text::empty(alloc),
            fstype: Text::empty(alloc),
            options: Listing::new(alloc),
        }
    }

    fn edit(&mut self, alloc: Global, edit: ListEdit, value: &Value) -> Result<(), ConfigFault>
        ensures { Changes self.old self.new result (fs_edited edit value.now self.old) }
    {
        match options_given(edit, value) {
            None => Err(ConfigFault::BadValue),
            Some(given) => edit_options(alloc, edit, &mut self.options, given),
        }
    }
}

impl Net {
    fn empty(alloc: Global) -> Net
        ensures { result ≡ net_row.empty }
    {
        Net {
            address: Text::empty(alloc),
            allowed: Text::empty(alloc),
            physical: Text::empty(alloc),
            defrouter: Text::empty(alloc),
        }
    }
}

impl Rctl {
    fn empty(alloc: Global) -> Rctl
        ensures { result ≡ rctl_row.empty }
    {
        Rctl {
            name: Text::empty(alloc),
            values: Listing::new(alloc),
        }
    }

    fn edit(&mut self, alloc: Global, edit: ListEdit, value: &Value) -> Result<(), ConfigFault>
        ensures { Changes self.old self.new result (rctl_edited edit value.now self.old) }
    {
        match limit_given(value) {
            None => Err(ConfigFault::BadValue),
            Some(given) => edit_list(alloc, edit, &mut self.values, &[given]),
        }
    }
}

impl Attr {
    fn empty(alloc: Global) -> Attr
        ensures { result ≡ attr_row.empty }
    {
        Attr {
            name: Text::empty(alloc),
            form: Text::empty(alloc),
            value: Text::empty(alloc),
        }
    }
}

macro_rules! empty_arms {
    (($kind:expr, $alloc:expr), $($name:ident $type:ident $put:ident),*) => {
        match $kind {
            $(Kind::$name => Resource::$name($type::empty($alloc)),)*
        }
    };
}

macro_rules! kind_arms {
    ($resource:expr, $($name:ident $type:ident $put:ident),*) => {
        match $resource {
            $(Resource::$name(_) => Kind::$name,)*
        }
    };
}

impl Resource {
    /// A resource of a kind of which nothing is set. It takes no memory.
    pub fn empty(alloc: Global, kind: Kind) -> Resource
        ensures { result ≡ empty kind }
    {
        each_kind!(empty_arms, (kind, alloc))
    }

    /// The kind.
    pub fn kind(&self) -> Kind
        ensures { result ≡ kind_of self.now }
    {
        each_kind!(kind_arms, self)
    }

    fn put(&mut self, field: Field, text: Text)
        requires { field ≡ FsDir → text ≡ [] }
        ensures { self.new ≡ with_field field text self.old }
    {
        each_kind!(put_arms, (self, field, text))
    }

    fn put_dir(&mut self, dir: Option<AbsPath>)
        ensures { self.new ≡ with_dir dir self.old }
    {
        if let Resource::Fs(fs) = self {
            fs.dir = dir;
        }
    }

    fn set_field(&mut self, alloc: Global, field: Field, value: &Value) -> Result<(), ConfigFault>
        ensures { Changes self.old self.new result (field_set field value.now self.old) }
    {
        let Value::Simple(text) = value else {
            return Err(ConfigFault::BadValue);
        };
        let bytes = text.bytes();
        if !field.rule().allows(bytes) {
            return Err(ConfigFault::BadValue);
        }
        match field {
            Field::FsDir => self.put_dir(path_kept(alloc, bytes)?),
            _ => self.put(field, text.copy(alloc)?),
        }
        Ok(())
    }

    #[tactic(auto, unfolding(crate::specs::Edits::list_edited))]
    fn edit_list(&mut self, alloc: Global, edit: ListEdit, value: &Value) -> Result<(), ConfigFault>
        ensures { Changes self.old self.new result (list_edited edit value.now self.old) }
    {
        match self {
            Resource::Fs(fs) => fs.edit(alloc, edit, value),
            Resource::Rctl(rctl) => rctl.edit(alloc, edit, value),
            _ => Err(ConfigFault::UnknownProperty),
        }
    }

    fn clear_list(&mut self, alloc: Global)
        ensures { self.new ≡ without_list self.old }
    {
        match self {
            Resource::Fs(fs) => fs.options = Listing::new(alloc),
            Resource::Rctl(rctl) => rctl.values = Listing::new(alloc),
            _ => {}
        }
    }

    /// Sets a property to a value, as `set NAME=VALUE` does: 22 where the kind has no property of this
    /// name, 23 where its rule doesn't allow the value, 27 where an fs would have more than 32 options.
    /// Options take a list or one text, and a value of an rctl becomes its only one. An empty text unsets
    /// the options and each property whose rule allows it. After a fault all is as before.
    #[tactic(auto, unfolding(crate::specs::Edits::with_property))]
    pub fn set_property(
        &mut self,
        alloc: Global,
        name: &[u8],
        value: &Value,
    ) -> Result<(), ConfigFault>
        ensures { Changes self.old self.new result (with_property name.now value.now self.old) }
    {
        match self.kind().named(name) {
            None => Err(ConfigFault::UnknownProperty),
            Some(Named::One(field)) => self.set_field(alloc, field, value),
            Some(Named::Many) => self.edit_list(alloc, ListEdit::Put, value),
        }
    }

    /// Unsets a property, as `clear NAME` does, or 22. A list loses all its items. It takes no memory.
    #[tactic(auto, unfolding(crate::specs::Edits::without_property))]
    pub fn clear_property(&mut self, alloc: Global, name: &[u8]) -> Result<(), ConfigFault>
        ensures { ChangesSurely self.old self.new result (without_property name.now self.old) }
    {
        match self.kind().named(name) {
            None => return Err(ConfigFault::UnknownProperty),
            Some(Named::One(field)) => self.put(field, Text::empty(alloc)),
            Some(Named::Many) => self.clear_list(alloc),
        }
        Ok(())
    }

    /// Puts items after those of a list, as `add options VALUE` and `add value VALUE` do: 22 where the
    /// kind has no list of this name, 23, 27 as in `set_property`. After a fault all is as before.
    #[tactic(auto, unfolding(crate::specs::Edits::with_value))]
    pub fn add_value(
        &mut self,
        alloc: Global,
        name: &[u8],
        value: &Value,
    ) -> Result<(), ConfigFault>
        ensures { Changes self.old self.new result (with_value name.now value.now self.old) }
    {
        match self.kind().named(name) {
            Some(Named::Many) => self.edit_list(alloc, ListEdit::Add, value),
            Some(Named::One(_)) | None => Err(ConfigFault::UnknownProperty),
        }
    }

    /// Takes the first equal item of each item given out of a list, as `remove options VALUE` and
    /// `remove value VALUE` do: 22, 23, or 25 where one isn't there. After a fault all is as before.
    #[tactic(auto, unfolding(crate::specs::Edits::without_value))]
    pub fn remove_value(
        &mut self,
        alloc: Global,
        name: &[u8],
        value: &Value,
    ) -> Result<(), ConfigFault>
        ensures { Changes self.old self.new result (without_value name.now value.now self.old) }
    {
        match self.kind().named(name) {
            Some(Named::Many) => self.edit_list(alloc, ListEdit::Remove, value),
            Some(Named::One(_)) | None => Err(ConfigFault::UnknownProperty),
        }
    }
}
