//! An editor that a session holds from line to line.
ghost use Rattle.std.specs.Prelude.{◌≡◌, IfOk, option_copied};
ghost use Rattle.zonecfg_scopes.specs.Edited.{is_changed, revision_of};
ghost use Rattle.zonecfg_scopes.specs.OpenOf.{config_of};
ghost use Rattle.zone_cases.specs.Session.Commits.{based};

use std::alloc::{AllocError, Global};
use std::marker::Model;
use zone_config::ZoneConfig;
use zonecfg_scopes::{Base, Editor};

/// An editor that a session holds. It lies behind a box, and has a `drop` of its own, so that what holds one is small and let
/// go by one call. Contracts see what the editor holds.
pub struct HeldEditor {
    editor: Box<Editor>,
}

impl Drop for HeldEditor {
    fn drop(self) {
        let HeldEditor { editor: _editor } = self;
    }
}

impl Model for HeldEditor {
    ghost use Rattle.zonecfg_scopes.specs.Edited.{Edited};

    ghost Value = { Edited };

    ghost view = { λ h. h.editor.value };
}

/// A configuration that is to be a base, held in the same way. Contracts see the configuration.
pub struct HeldConfig {
    config: Box<ZoneConfig>,
}

impl Drop for HeldConfig {
    fn drop(self) {
        let HeldConfig { config: _config } = self;
    }
}

impl Model for HeldConfig {
    ghost use Rattle.zone_config.specs.declared.terms.Contents.{Contents};

    ghost Value = { Contents };

    ghost view = { λ h. h.config.value };
}

impl HeldEditor {
    pub(crate) fn new(alloc: Global, editor: Editor) -> Result<Self, AllocError>
        ensures { IfOk result (λ held. held ≡ editor) }
    {
        Ok(Self {
            editor: Box::new(alloc, editor)?,
        })
    }

    /// An equal editor.
    pub(crate) fn copy(&self, alloc: Global) -> Result<Editor, AllocError>
        ensures { IfOk result (λ editor. editor ≡ self.now) }
    {
        match self.editor.copy(alloc) {
            Ok(editor) => Ok(editor),
            // Memory is all that a copy can want.
            Err(_) => Err(AllocError),
        }
    }

    /// The configuration that is open.
    pub(crate) fn config(&self) -> Option<&ZoneConfig>
        ensures { option_copied result ≡ config_of self.now.opened }
    {
        self.editor.config()
    }

    /// The same, out of the editor. It takes no memory.
    pub(crate) fn into_config(self) -> Option<ZoneConfig>
        ensures { result ≡ config_of self.opened }
    {
        let HeldEditor { editor } = self;
        Box::into_inner(editor).into_config()
    }

    /// Whether a configuration is open that differs from the base's, or that has no base.
    pub(crate) fn changed(&self) -> bool
        ensures { result ≡ is_changed self.now }
    {
        self.editor.changed()
    }

    /// The revision of the base, or 0 without one.
    pub(crate) fn seen(&self) -> u32
        ensures { result ≡ revision_of self.now.base }
    {
        self.editor.seen()
    }

    /// What was committed is its base from now on, under this number. It takes no memory.
    pub fn set_base(&mut self, config: HeldConfig, revision: u32)
        ensures { self.new ≡ based config revision self.old }
    {
        let base = Base {
            config: config.into_inner(),
            revision,
        };
        self.editor.set_base(base);
    }
}

impl HeldConfig {
    fn into_inner(self) -> ZoneConfig
        ensures { result ≡ self }
    {
        let HeldConfig { config } = self;
        Box::into_inner(config)
    }

    /// An equal configuration.
    pub(crate) fn copy_of(alloc: Global, config: &ZoneConfig) -> Result<Self, AllocError>
        ensures { IfOk result (λ held. held ≡ config.now) }
    {
        match config.copy(alloc) {
            Ok(config) => Ok(Self {
                config: Box::new(alloc, config)?,
            }),
            Err(_) => Err(AllocError),
        }
    }
}
