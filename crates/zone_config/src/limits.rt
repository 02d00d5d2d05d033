//! The limits of a configuration.

/// The greatest length of an export text, in bytes.
pub(crate) const TEXT_MAX: usize = 32_768;

/// The greatest number of resources.
pub(crate) const RESOURCES_MAX: usize = 256;

/// The greatest number of file systems among them.
pub(crate) const FS_MAX: usize = 100;
