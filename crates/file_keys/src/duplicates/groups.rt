//! The files of the command `duplicates`, in groups by their keys.

ghost use Rattle.std.specs.Prelude.{◌≡◌, [], OnOk, OnErr, IfErr};
ghost use Rattle.file_keys.specs.Words.{classes_in, is_empty, IsMemory, kept_groups, with_name};

use indexmap::IndexMap;
use life_base::Kind;
use life_table::NameSeed;
use pattern_sources::Seeds;
use std::alloc::Global;

/// The names of the files with one key, in the order of the files.
#[derive(Drop)]
pub struct Group<'a> {
    pub first: &'a [u8],
    pub more: Vec<&'a [u8]>,
}

impl<'a> Group<'a> {
    /// Whether no other file has the key of the first.
    pub(super) fn is_alone(&self) -> bool
        ensures { result ≡ is_empty self.now.more.items }
    {
        self.more.is_empty()
    }
}

/// The files of a run that have a key, by their keys. The groups are in the order of their first files.
#[derive(Drop)]
pub struct Groups<'a> {
    alloc: Global,
    pub by_key: IndexMap<[u8; 32], Group<'a>, NameSeed>,
}

impl<'a> Groups<'a> {
    /// No files.
    pub(super) fn new(alloc: Global, seeds: &Seeds) -> Groups<'a>
        ensures { classes_in result ≡ [] }
    {
        Groups {
            alloc,
            by_key: IndexMap::with_hasher(alloc, seeds.names),
        }
    }

    /// Adds a file to the group of its key. Where memory is refused, the groups stay as they are.
    pub(super) fn add(&mut self, key: [u8; 32], name: &'a [u8]) -> Result<(), Kind>
        ensures ok { OnOk result
            (classes_in self.new ≡ with_name (classes_in self.old) key name.now) }
        ensures err { OnErr result (classes_in self.new ≡ classes_in self.old) }
        ensures kind { IfErr result IsMemory }
    {
        if let Some(group) = self.by_key.get_mut(&key) {
            group.more.push(name)?;
            return Ok(());
        }
        let group = Group {
            first: name,
            more: Vec::new(self.alloc),
        };
        self.by_key.insert(key, group)?;
        Ok(())
    }

    /// Whether no two files have one key.
    pub(super) fn are_alone(&self) -> bool
        ensures { result ≡ is_empty (kept_groups self.now) }
    {
        for group in self.by_key.values() {
            if !group.is_alone() {
                return false;
            }
        }
        true
    }
}
