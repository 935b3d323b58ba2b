// Inner: the records of a file that has all the bytes that its header says, by their places: each is handed on as the
// part of the file that starts at it. Of a slip and a pairing any kind of record whose file has nothing between header
// and records; of a list, store or raw, its entries, by its shape.
ghost use Rattle.cellfile.specs.Kinds.{layout_of};
ghost use Rattle.std.specs.Prelude.{◌≡◌, ◌<◌};
ghost use Rattle.cellfile.specs.Files.{list_layout, cells_of, file_length};
ghost use Rattle.cellfile.specs.Reads.{WholeFile};
ghost use Rattle.cellfile.specs.Shapes.{ShapeRead};

use crate::decode;
use crate::decode::{Entry, PairEntry, SlipStep};
use crate::format::Kind;
use std::marker::PhantomData;

// A kind of record, and how it is read.
pub trait Record: Copy {
    ghost use Rattle.std.specs.Prelude.{ℕ, List};
    ghost use Rattle.cellfile.specs.declared.format.Kind as kinds;
    ghost use Rattle.cellfile.specs.Kinds.{layout_of};
    ghost use Rattle.cellfile.specs.Reads.{RecordAt};

    // The kind of the file, the fields that a record says, and their bounds.
    ghost KIND: { kinds.Kind };

    ghost says: { Self → List ℕ };

    ghost Fits: { Self → Type 0 };

    const KIND: Kind;

    // The record at the start of the bytes.
    fn at(bytes: &[u8]) -> Self
        ensures { RecordAt (layout_of KIND) says Fits bytes.now result };
}

impl Record for SlipStep {
    ghost use Rattle.cellfile.specs.declared.format.Kind.TheVariants.{Slip};
    ghost use Rattle.cellfile.specs.Reads.{step_fields, StepFits};

    ghost KIND = { Slip };

    ghost says = { step_fields };

    ghost Fits = { StepFits };

    const KIND: Kind = Kind::Slip;

    fn at(bytes: &[u8]) -> SlipStep {
        decode::step_at(bytes)
    }
}

impl Record for PairEntry {
    ghost use Rattle.cellfile.specs.declared.format.Kind.TheVariants.{Pairing};
    ghost use Rattle.cellfile.specs.Reads.{pair_entry_fields, PairFits};

    ghost KIND = { Pairing };

    ghost says = { pair_entry_fields };

    ghost Fits = { PairFits };

    const KIND: Kind = Kind::Pairing;

    fn at(bytes: &[u8]) -> PairEntry {
        decode::pair_at(bytes)
    }
}

// The records of a file.
#[derive(Drop)]
pub struct Records<'a, R: Record> {
    pub file: &'a [u8],
    pub count: usize,
    of: PhantomData<R>,
    ghost whole: { WholeFile (layout_of R.KIND) file.now count },
}

impl<'a, R: Record> Records<'a, R> {
    ghost use Rattle.std.specs.Prelude.{◌<◌, ◌≡◌};
    ghost use Rattle.cellfile.specs.Reads.{RecordRead};

    // The records of a file that is long enough.
    pub fn new(file: &'a [u8], count: usize) -> Self
        requires { WholeFile (layout_of R.KIND) file.now count }
        ensures file { result.file ≡ file.entry }
        ensures count { result.count ≡ count }
    {
        Records {
            file,
            count,
            of: PhantomData,
        }
    }

    pub fn get(&self, i: usize) -> R
        requires { i < self.now.count }
        ensures { RecordRead (layout_of R.KIND) R.says R.Fits self.now.file.now i result }
    {
        let place = R::KIND.start() + R::KIND.record_bytes() * i;
        R::at(&self.file[place..])
    }
}

// Where the entries of a list start, and the bytes of each.
#[derive(Clone, Copy)]
pub struct Shape {
    pub start: usize,
    pub bytes: usize,
}

// The shape of a list, by its bytes.
pub fn shape_of(_list: &[u8]) -> Shape
    ensures { ShapeRead _list.now result }
{
    Shape {
        start: Kind::StoreList.start(),
        bytes: Kind::StoreList.record_bytes(),
    }
}

// The bytes of a list with m entries.
pub fn list_bytes(list: &[u8], m: usize) -> usize
    requires { m < 8192 }
    ensures { result ≡ file_length (list_layout list.now) (cells_of list.now) m }
{
    let Shape { start, bytes } = shape_of(list);
    start + bytes * m
}

// The m entries of a list of n cells.
#[derive(Clone, Copy)]
pub struct Entries<'a> {
    pub file: &'a [u8],
    pub n: usize,
    pub m: usize,
    ghost cells: { n ≡ cells_of file.now },
    ghost whole: { WholeFile (list_layout file.now) file.now m },
}

impl<'a> Entries<'a> {
    ghost use Rattle.std.specs.Prelude.{◌<◌};
    ghost use Rattle.cellfile.specs.Reads.{EntryRead};

    // Those of a list that is long enough.
    pub fn new(file: &'a [u8], n: usize, m: usize) -> Self
        requires cells { n ≡ cells_of file.now }
        requires whole { WholeFile (list_layout file.now) file.now m }
        ensures file { result.file ≡ file.entry }
        ensures sizes { (result.n ≡ n) × (result.m ≡ m) }
    {
        Entries { file, n, m }
    }

    pub fn get(&self, i: usize) -> Entry
        requires { i < self.now.m }
        ensures { EntryRead self.now.file.now i result }
    {
        let Shape { start, bytes } = shape_of(self.file);
        decode::entry_at(&self.file[start + bytes * i..], bytes)
    }
}
