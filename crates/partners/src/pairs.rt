// Inner: pairs in the table of partners.
ghost use Rattle.std.specs.Prelude.{◌≡◌, List, ◌-◌, ◌<◌, ◌≤◌, length, take, drop};
ghost use Rattle.matching.specs.Pairs.{Pair, held, free};
ghost use Rattle.matching.specs.Origin.{Origins, number_in};
ghost use Rattle.cellfile.specs.Files.{pairs_of};
ghost use Rattle.origins.specs.Stamps.{as_origin};
ghost use Rattle.partners.specs.Table.{joined, parted, InTable, TableOnly, SameBuffer};
ghost use Rattle.partners.specs.Entering.{Empty, Filled};

use crate::table::Table;
use buffers::map::{PARTNER_FIELD, TABLE};
use cellfile::decode::PairEntry;
use cellfile::records::Records;
use origins::Origin;

// The words of the table.
const CELLS: usize = 1024;

impl Table<'_> {
    // The pair x, y comes in, with where it is from.
    pub fn join(&mut self, x: usize, y: usize, origin: Origin)
        requires { (x < 1024) × (y < 1024) × (number_in (as_origin origin) < 2048) }
        ensures joined { self.new.words.now ≡ joined x y (as_origin origin) self.old.words.now }
        ensures same { SameBuffer self.old self.new }
    {
        let stamp = origin.stamp();
        self.words[TABLE + x] = y as u64 + 1 + PARTNER_FIELD * stamp;
        self.words[TABLE + y] = x as u64 + 1 + PARTNER_FIELD * stamp;
    }

    // The pair x, y goes out.
    pub fn part(&mut self, x: usize, y: usize)
        requires { (x < 1024) × (y < 1024) }
        ensures parted { self.new.words.now ≡ parted x y self.old.words.now }
        ensures same { SameBuffer self.old self.new }
    {
        self.words[TABLE + x] = 0;
        self.words[TABLE + y] = 0;
    }

    // Whether x and y are partners.
    pub fn has(&self, x: usize, y: usize) -> bool
        requires { (x < 1024) × (y < 1024) }
        ensures { (o : Origins) (m : List Pair) → InTable self.now.words.now o m → result ≡ held x y m }
    {
        self.words[TABLE + x] % PARTNER_FIELD == y as u64 + 1
    }

    // Whether x has no partner.
    pub fn is_free(&self, x: usize) -> bool
        requires { x < 1024 }
        ensures { (o : Origins) (m : List Pair) → InTable self.now.words.now o m → result ≡ free x m }
    {
        self.words[TABLE + x] == 0
    }

    // The words on the trail from place a to before b.
    pub fn trail(&self, a: usize, b: usize) -> &[u64]
        requires { (a ≤ b) × (b ≤ length self.now.words.now) }
        ensures { result.now ≡ take (b - a) (drop a self.now.words.now) }
    {
        let words = &*self.words;
        &words[a..b]
    }

    // No cell has a partner afterwards.
    pub fn clear(&mut self)
        ensures { Empty self.new.words.now × TableOnly self.old.words.now self.new.words.now
            × SameBuffer self.old self.new }
    {
        self.words[TABLE..TABLE + CELLS].fill(0);
    }

    // Whether a cell stands twice. The partners of the cells met go into the table, which is empty before.
    fn fill(&mut self, pairs: &Records<'_, PairEntry>) -> bool
        requires { Empty self.old.words.now }
        ensures { Filled (pairs_of pairs.now.file.now) self.old.words.now self.new.words.now result
            × SameBuffer self.old self.new }
    {
        for i in 0..pairs.count {
            let p = pairs.get(i);
            if self.words[TABLE + p.a] != 0 {
                return true;
            }
            self.words[TABLE + p.a] = p.b as u64 + 1;
            if self.words[TABLE + p.b] != 0 {
                return true;
            }
            self.words[TABLE + p.b] = p.a as u64 + 1;
        }
        false
    }

    // Whether a cell of the pairing stands twice; else the table has its partners.
    pub fn enter(&mut self, pairs: &Records<'_, PairEntry>) -> bool
        ensures { Filled (pairs_of pairs.now.file.now) self.old.words.now self.new.words.now result
            × SameBuffer self.old self.new }
    {
        self.clear();
        self.fill(pairs)
    }
}
