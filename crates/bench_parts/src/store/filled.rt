//! A store and a map with the same keys and values.
use crate::store::keys::Keys;
use crate::store::tenant::Tenant;
use anyhow::{Result, bail};
use etcd_types::{KeyValue, PutReq};
use std::alloc::Global;
use std::collections::BTreeMap;

/// A key with its value.
pub(crate) type Row = (Vec<u8>, Vec<u8>);

/// A store and a map with the same keys and values.
#[derive(Drop)]
pub(crate) struct Filled {
    pub(crate) tenant: Tenant,
    pub(crate) map: BTreeMap<Vec<u8>, Vec<u8>>,
}

impl Filled {
    /// With no keys.
    pub(crate) fn new(alloc: Global) -> Result<Filled> {
        Ok(Filled {
            tenant: Tenant::new(alloc)?,
            map: BTreeMap::new(alloc),
        })
    }

    /// Puts these keys, which come scattered, into both.
    pub(crate) fn fill(&mut self, alloc: Global, keys: Keys) -> Result<()> {
        let puts = keys.puts(alloc, keys.count)?;
        self.put_all(alloc, &puts)
    }

    /// Puts all of these into both.
    fn put_all(&mut self, alloc: Global, requests: &[PutReq]) -> Result<()> {
        for request in requests {
            self.tenant.put(alloc, request)?;
            self.insert(alloc, request)?;
        }
        Ok(())
    }

    /// Puts a key into the map.
    pub(crate) fn insert(&mut self, alloc: Global, request: &PutReq) -> Result<()> {
        let key = Vec::from_slice(alloc, request.key.as_slice())?;
        let value = Vec::from_slice(alloc, request.value.as_slice())?;
        match self.map.insert(key, value) {
            Ok(_old) => Ok(()),
            Err(_) => bail!("no memory is left"),
        }
    }
}

/// A row of the store, as the map has it.
pub(crate) fn row_of(row: KeyValue) -> Row {
    let (key, value) = row.into_pair();
    (key.into_vec(), value.into_vec())
}

/// A row of the map, copied.
pub(crate) fn copy_row(alloc: Global, key: &[u8], value: &[u8]) -> Result<Row> {
    Ok((Vec::from_slice(alloc, key)?, Vec::from_slice(alloc, value)?))
}

/// The next of some requests that are made in turn, over and over.
pub(crate) fn next_of<'a, T>(requests: &'a [T], next: &mut usize) -> Result<&'a T> {
    let Some(request) = requests.get(*next) else {
        bail!("there is no request");
    };
    *next = if *next + 1 < requests.len() {
        *next + 1
    } else {
        0
    };
    Ok(request)
}
