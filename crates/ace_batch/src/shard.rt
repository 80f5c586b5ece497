// Parts of a list.
ghost use Rattle.std.specs.Prelude.{◌≡◌, ◌<◌, ◌++◌, IfOk, OnOk};
ghost use Rattle.ace_batch.specs.Shards.{if_in, is_in, part_of};

use ace_io::NoMemory;
use std::alloc::Global;

/// One of the parts of a list: the K-th, (K + N)-th, .. element are in part K of N.
#[derive(Clone, Copy)]
pub struct Shard {
    /// Which part, from 1.
    pub part: usize,
    /// Of how many.
    pub parts: usize,
    ghost some: { 0 < parts },
}

impl Shard {
    /// The whole list.
    pub fn whole() -> Shard
        ensures part { result.part ≡ 1 }
        ensures parts { result.parts ≡ 1 }
    {
        Shard { part: 1, parts: 1 }
    }

    /// The place, counted from 0, is in this part.
    pub(crate) fn has(&self, place: usize) -> bool
        ensures { result ≡ is_in self.now.part self.now.parts place }
    {
        place % self.parts + 1 == self.part
    }

    /// Adds the element at this place, if it is in this part.
    fn add<'a>(&self, some: &mut Vec<&'a str>, place: usize, path: &'a str) -> Result<(), NoMemory>
        ensures { OnOk result (some.new.items ≡ some.old.items
            ++ if_in self.now.part self.now.parts place path.entry) }
    {
        if self.has(place) && some.push(path).is_err() {
            return Err(NoMemory);
        }
        Ok(())
    }

    /// The elements of the list that are in this part.
    ///
    /// # Errors
    ///
    /// `NoMemory` where there is none for them.
    #[tactic(auto, using(crate::proofs::Parts::parts))]
    pub fn of<'a>(&self, alloc: Global, list: &[&'a str]) -> Result<Vec<&'a str>, NoMemory>
        ensures { IfOk result (λ some. some.items ≡ part_of self.now.part self.now.parts list.now) }
    {
        let mut some = Vec::new(alloc);
        for place in 0..list.len() {
            self.add(&mut some, place, list[place])?;
        }
        Ok(some)
    }
}
