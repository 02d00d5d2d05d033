//! The values that tests give.
use config_terms::ConfigFault;
use std::alloc::{AllocError, Global};
use zn_base::{Listing, Pair, Text, Value};

pub fn text(alloc: Global, bytes: &[u8]) -> Result<Text, ConfigFault> {
    match Text::read(alloc, bytes) {
        Ok(text) => Ok(text),
        Err(_) => Err(ConfigFault::Memory),
    }
}

pub fn simple(alloc: Global, bytes: &[u8]) -> Result<Value, ConfigFault> {
    Ok(Value::Simple(text(alloc, bytes)?))
}

pub fn list(alloc: Global, items: &[&[u8]]) -> Result<Value, ConfigFault> {
    let mut texts = Listing::new(alloc);
    for item in items {
        texts.push(text(alloc, item)?)?;
    }
    Ok(Value::List(texts))
}

fn pair(alloc: Global, name: &[u8], value: &[u8]) -> Result<Pair, ConfigFault> {
    let name = text(alloc, name)?;
    let value = text(alloc, value)?;
    Ok(Pair { name, value })
}

/// A name and a value each.
pub fn pairs(alloc: Global, items: &[(&[u8], &[u8])]) -> Result<Listing<Pair>, ConfigFault> {
    let mut all = Listing::new(alloc);
    for (name, value) in items {
        all.push(pair(alloc, name, value)?)?;
    }
    Ok(all)
}

/// A privileged limit of a resource control.
pub fn limit<'x>(alloc: Global, number: &'x [u8], action: &'x [u8]) -> Result<Value, ConfigFault> {
    let items = [
        (b"priv".as_slice(), b"privileged".as_slice()),
        (b"limit", number),
        (b"action", action),
    ];
    Ok(Value::Complex(pairs(alloc, &items)?))
}

/// Texts one after another.
pub fn joined(alloc: Global, parts: &[&[u8]]) -> Result<Vec<u8>, AllocError> {
    let mut all = Vec::new(alloc);
    for part in parts {
        all.extend_from_slice(part)?;
    }
    Ok(all)
}
