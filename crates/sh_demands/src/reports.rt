//! The places that a walk reports.
ghost use Rattle.std.specs.Prelude.{◌≡◌, ◌+◌, ◌++◌, ◌∷◌, ◌<◌, [], List, drop, length, IfOk, IfErr, OnOk};
ghost use Rattle.std.specs.List.{list_any};
ghost use Rattle.std.specs.Str.{bytes_eq};
ghost use Rattle.sh_tree.specs.declared.place.Place.{Place};
ghost use Rattle.sh_demands.specs.Drops as drops;
ghost use Rattle.sh_demands.specs.Kept.{AreTold, IsTold};
ghost use Rattle.sh_demands.specs.Reported.{Adds, AddsSince, HasReported, place};

use indexmap::IndexSet;
use sh_hash::NameHash;
use sh_tree::{Code, Items, Place};
use std::alloc::{AllocError, Global};
use std::marker::Model;

// So many places are compared one by one, without a set of their subjects.
const FEW: usize = 32;

/// The places that were reported so far, until memory runs out; then no more than that there are
/// some.
#[derive(Drop)]
pub struct Reports {
    places: Kept,
    is_short: bool,
}

impl Reports {
    /// No places. The hash is that of the script's names.
    pub fn new(alloc: Global, hash: NameHash) -> Reports
        ensures { HasReported result [] }
    {
        Reports {
            places: Kept::new(alloc, hash),
            is_short: false,
        }
    }

    /// The allocator of the places.
    pub fn allocator(&self) -> &Global {
        self.places.allocator()
    }

    /// How many places are kept.
    pub fn len(&self) -> usize
        ensures { result ≡ length self.now.places.items }
    {
        self.places.len()
    }

    /// Reports a place.
    pub fn report(&mut self, at: u32, code: Code, subject: &[u8])
        ensures { Adds self.old self.new (λ ps. ps ++ place at code subject.now ∷ []) }
    {
        if self.is_short {
            return;
        }
        if self.keep(at, code, subject).is_err() {
            self.is_short = true;
        }
    }

    /// Reports a place for whose subject there is no memory.
    pub fn report_lost(&mut self)
        ensures { (x : Place) → Adds self.old self.new (λ ps. ps ++ x ∷ []) }
    {
        self.is_short = true;
    }

    /// Reports that the name may be dropped, unless a place from `start` on is about it.
    pub fn report_once(&mut self, name: &[u8], at: u32, start: usize)
        ensures { AddsSince start self.old self.new (λ k ps. drops.once_told k at ps name.now) }
    {
        if self.places.is_about(name, start) {
            return;
        }
        self.report(at, Code::P1, name);
    }

    fn keep(&mut self, at: u32, code: Code, subject: &[u8]) -> Result<(), AllocError>
        ensures kept { OnOk result (self.new.places.items ≡ self.old.places.items ++ place at code subject.now ∷ []) }
        ensures short { self.new.is_short ≡ self.old.is_short }
    {
        let subject = Items::from_slice(*self.places.allocator(), subject)?;
        self.places.push(Place { at, code, subject })?;
        Ok(())
    }

    /// All places.
    ///
    /// # Errors
    ///
    /// If memory ran out; then at least one was reported.
    pub fn finish(self) -> Result<Vec<Place>, AllocError>
        ensures all { IfOk result (λ places. (ps : List Place) → HasReported self ps → places.items ≡ ps) }
        ensures some { IfErr result (λ _. (ps : List Place) → HasReported self ps → 0 < length ps) }
    {
        if self.is_short {
            Err(AllocError)
        } else {
            Ok(self.places.into_places())
        }
    }
}

// Places in their order, with the subjects of some of them.
#[derive(Drop)]
struct Kept {
    places: Vec<Place>,
    told: Subjects,
}

impl Model for Kept {
    ghost use Rattle.std.specs.Global.{Global};
    ghost use Rattle.std.specs.Prelude.{Vec};
    ghost use Rattle.sh_tree.specs.declared.place.Place.{Place};
    ghost use Rattle.sh_demands.specs.Kept.{IsTold};

    ghost Value = { Vec Place Global };

    ghost view = { λ k. k.places };

    ghost invariant = { λ k. IsTold k.told k.places.items };
}

impl Kept {
    fn new(alloc: Global, hash: NameHash) -> Kept
        ensures { result.items ≡ [] }
    {
        Kept {
            places: Vec::new(alloc),
            told: Subjects::new(alloc, hash, 0),
        }
    }

    fn allocator(&self) -> &Global {
        self.places.allocator()
    }

    fn len(&self) -> usize
        ensures { result ≡ length self.now.items }
    {
        self.places.len()
    }

    fn push(&mut self, place: Place) -> Result<(), AllocError>
        ensures { OnOk result (self.new.items ≡ self.old.items ++ place ∷ []) }
    {
        self.places.push(place)?;
        Ok(())
    }

    // Whether a place from `start` on is about the name.
    fn is_about(&mut self, name: &[u8], start: usize) -> bool
        ensures same { self.new ≡ self.old }
        ensures about { result ≡ list_any (λ x. bytes_eq x.subject name.now) (drop start self.old.items) }
    {
        let places = places_from(&self.places, start);
        if places.len() <= FEW {
            return is_about(places, name);
        }
        self.told.restart(start);
        self.told.is_about(places, name)
    }

    fn into_places(self) -> Vec<Place>
        ensures { result.items ≡ self.items }
    {
        self.places
    }
}

// The subjects of so many places, from one on.
#[derive(Drop)]
struct Subjects {
    subjects: IndexSet<Vec<u8>, NameHash>,
    hash: NameHash,
    start: usize,
    count: usize,
}

impl Subjects {
    fn new(alloc: Global, hash: NameHash, start: usize) -> Subjects
        ensures start { result.start ≡ start }
        ensures told { (ps : List Place) → IsTold result ps }
    {
        Subjects {
            subjects: IndexSet::with_hasher(alloc, hash),
            hash,
            start,
            count: 0,
        }
    }

    // No place is told yet if they begin at another one.
    fn restart(&mut self, start: usize)
        ensures start { self.new.start ≡ start }
        ensures told { (ps : List Place) → IsTold self.old ps → IsTold self.new ps }
    {
        if self.start != start {
            *self = Subjects::new(*self.subjects.allocator(), self.hash, start);
        }
    }

    // Whether one of the places is about the name. If memory runs out, they are compared.
    fn is_about(&mut self, places: &[Place], name: &[u8]) -> bool
        requires { AreTold self.old.subjects.keys self.old.count places.now }
        ensures told { AreTold self.new.subjects.keys self.new.count places.now }
        ensures same { self.new.start ≡ self.old.start }
        ensures about { result ≡ list_any (λ x. bytes_eq x.subject name.now) places.now }
    {
        match self.tell(places) {
            Ok(()) => self.subjects.contains(name),
            Err(_) => is_about(places, name),
        }
    }

    fn tell(&mut self, places: &[Place]) -> Result<(), AllocError>
        requires { AreTold self.old.subjects.keys self.old.count places.now }
        ensures told { AreTold self.new.subjects.keys self.new.count places.now }
        ensures same { self.new.start ≡ self.old.start }
        ensures all { OnOk result (self.new.count ≡ length places.now) }
    {
        while self.count < places.len() {
            self.tell_next(places)?;
        }
        Ok(())
    }

    fn tell_next(&mut self, places: &[Place]) -> Result<(), AllocError>
        requires told { AreTold self.old.subjects.keys self.old.count places.now }
        requires more { self.old.count < length places.now }
        ensures told { AreTold self.new.subjects.keys self.new.count places.now }
        ensures same { self.new.start ≡ self.old.start }
        ensures next { OnOk result (self.new.count ≡ self.old.count + 1) }
    {
        let subject = places[self.count].subject.as_slice();
        let own = Vec::from_slice(*self.subjects.allocator(), subject)?;
        self.subjects.insert(own)?;
        self.count += 1;
        Ok(())
    }
}

// The places from `start` on.
fn places_from(places: &[Place], start: usize) -> &[Place]
    ensures { result.now ≡ drop start places.now }
{
    if start < places.len() {
        &places[start..]
    } else {
        &[]
    }
}

fn is_about(places: &[Place], name: &[u8]) -> bool
    ensures { result ≡ list_any (λ x. bytes_eq x.subject name.now) places.now }
{
    places.iter().any(|place| place.subject.as_slice() == name)
}
