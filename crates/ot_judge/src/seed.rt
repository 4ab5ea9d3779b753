//! Hashing of tags that whoever writes a trace cannot aim at: the hash begins with all the tags that are looked for. So tags that were chosen to
//! fall into one place of a table, as one can for a hash that is known, change the hash by being there.

use ot_isa::Tag;
use std::hash::{BuildHasher, FoldHasher, Hasher};

/// A hasher that has taken tags, from which all the hashes of one table go on.
#[derive(Clone, Copy)]
pub struct Seed {
    state: FoldHasher,
}

impl BuildHasher for Seed {
    type Hasher = FoldHasher;

    ghost build_hasher = { λ s. s.state };

    fn build_hasher(&self) -> FoldHasher {
        self.state
    }
}

impl Seed {
    /// No tag is taken yet.
    pub fn new() -> Seed {
        Seed {
            state: FoldHasher::default(),
        }
    }

    /// Takes these tags too.
    pub fn add(&mut self, tags: &[Tag]) {
        for a in tags {
            self.state
                .write_u64((a.origin as u64) << 32 | a.serial as u64);
        }
    }

    /// Has taken these tags.
    pub fn of(tags: &[Tag]) -> Seed {
        let mut seed = Seed::new();
        seed.add(tags);
        seed
    }

    /// Has taken the tags of these lists.
    pub fn of_lists(lists: &[Vec<Tag>]) -> Seed {
        let mut seed = Seed::new();
        for v in lists {
            seed.add(v.as_slice());
        }
        seed
    }
}
