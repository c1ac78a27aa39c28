// A number for each of forty machines.
ghost use Rattle.std.specs.Prelude.{◌≡◌, ℕ, ◌+◌, ◌<◌, ◌≤◌, max, length, slice_index, slice_set};

// So many doings of each machine: a cut, a vector (vector clock), all that there are; or where each machine's states begin. A rule of
// the project has an array of forty: so a cut is copied, set and joined with no memory that could run out.
#[derive(Clone, Copy)]
pub struct Counts {
    pub of: [u16; 40],
    ghost wide: { length of ≡ 40 },
}

impl Counts {
    pub fn none() -> Counts
        ensures { (k : ℕ) → slice_index result.of k ≡ 0 }
    {
        Counts { of: [0; 40] }
    }

    // So many behind a machine's count. Lent, since forty counts handed over at each read of a run's states cost more than the read.
    pub fn index(&self, machine: usize, behind: u16) -> usize
        requires { machine < 40 }
        ensures { result ≡ slice_index self.now.of machine + behind }
    {
        usize::from(self.of[machine]) + usize::from(behind)
    }

    // The same but for one machine.
    pub fn with(self, machine: usize, count: u16) -> Counts
        requires { machine < 40 }
        ensures { result.of ≡ slice_set self.of machine count }
    {
        let mut of = self.of;
        of[machine] = count;
        Counts { of }
    }

    // The higher count of each of the first so many machines, the others as they are, and how many pairs of counts were compared
    // for that.
    pub fn joined(self, count: usize, other: Counts) -> (Counts, u64)
        requires { count ≤ 40 }
        ensures higher { (k : ℕ) → k < count → slice_index result.0.of k ≡ max (slice_index self.of k) (slice_index other.of k) }
        ensures others { (k : ℕ) → count ≤ k → slice_index result.0.of k ≡ slice_index self.of k }
        ensures pairs { result.1 ≡ count }
    {
        let mut of = self.of;
        let mut pairs = 0;
        for (machine, theirs) in other.of[..count].iter().enumerate() {
            pairs += 1;
            if of[machine] < *theirs {
                of[machine] = *theirs;
            }
        }
        (Counts { of }, pairs)
    }
}
