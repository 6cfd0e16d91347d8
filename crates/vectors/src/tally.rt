// What the records of a file came to, and things counted by a number.
ghost use Rattle.std.specs.Prelude.{◌≡◌, ◌+◌, ◌%◌, ◌^◌, Some, if◌then◌else◌, length};
ghost use Rattle.std.specs.Option.{option_or};
ghost use Rattle.vectors.specs.Counting.{one_more, counted};

use std::io;

// How many records were tested, how many of them are not as the file says, and the number of the first of these, from 0.
#[derive(Clone, Copy, Default)]
pub struct Tally {
    pub tested: u64,
    pub differ: u64,
    pub first: Option<u64>,
}

impl Tally {
    // Each record tested.
    pub fn of<T, F: FnMut(&T) -> bool>(records: &[T], mut is_right: F) -> Tally
        requires { F.IsAlwaysCallable is_right }
        ensures { result.tested ≡ length records.now % 2 ^ 64 }
    {
        let mut tally = Tally::default();
        for record in records {
            tally.told(is_right(record));
        }
        tally
    }

    // One more record.
    pub fn told(&mut self, right: bool)
        ensures tested { self.new.tested ≡ one_more self.old.tested }
        ensures differ { self.new.differ ≡ (if right then self.old.differ else one_more self.old.differ) }
        ensures first { self.new.first ≡ (if right then self.old.first else option_or self.old.first (Some self.old.tested)) }
    {
        if !right {
            self.first = self.first.or(Some(self.tested));
            self.differ = self.differ.wrapping_add(1);
        }
        self.tested = self.tested.wrapping_add(1);
    }

    // Two lines: how many were tested, under a name, and how many differ; the second also where the first cannot be written. Here as in the test programs' own tallies lines of a
    // report, in part under a name that the struct has not: Display would be no shorter.
    pub fn print(&self, rt: &impl Print, name: &str) -> io::Result<()> {
        let tested = println!(rt; "{name} {}", self.tested);
        let differ = println!(rt; "differ {}", self.differ);
        tested.and(differ)
    }

    // The same, and a third line that names the first that differs.
    pub fn print_with_first(&self, rt: &impl Print, name: &str) -> io::Result<()> {
        let counted = self.print(rt, name);
        match self.first {
            Some(first) => counted.and(println!(rt; "first {first}")),
            None => counted,
        }
    }
}

// So many more.
pub fn add(count: &mut u64, by: u64)
    ensures { count.new ≡ (count.old + by) % 2 ^ 64 }
{
    *count = count.wrapping_add(by);
}

// One more of the things with this number; a number past the end is not counted. Tried with `get_mut`: of the slice that it
// was lent from a proof then knows the length and no element.
pub fn count(counts: &mut [u64], number: usize)
    ensures { counts.new ≡ counted counts.old number }
{
    if number < counts.len() {
        add(&mut counts[number], 1);
    }
}
