ghost use Rattle.std.specs.Prelude.{◌≡◌, ◌≤◌, ◌<◌, ℕ, All, length, map, take};
ghost use Rattle.std.specs.List.Sorted.{IsStrictlyIncreasing};

/// A run's case.
#[derive(Clone, Copy)]
pub struct BeadSetup {
    ranks: u32,
    beads: u32,
    steps: u32,
    interval: u32,
    shift: u32,
    // the first of these are the ranks that die, rising, and how many events each has by then
    deaths: [(u32, u32); 32],
    dying: usize,
    pub ghost some_rank: { 1 ≤ ranks },
    pub ghost ranks_fit: { ranks ≤ 32 },
    pub ghost beads_fit: { beads ≤ 32 },
    pub ghost steps_fit: { steps ≤ 128 },
    pub ghost shift_fits: { shift ≤ 1000 },
    pub ghost some_interval: { 1 ≤ interval },
    pub ghost interval_fits: { interval ≤ 128 },
    pub ghost dying_fit: { dying ≤ 32 },
    pub ghost deaths_below: { All (λ (death : ℕ × ℕ). death.0 < ranks) (take dying deaths) },
    pub ghost deaths_rise: { IsStrictlyIncreasing (map (λ (death : ℕ × ℕ). death.0) (take dying deaths)) },
}

// A table that begins with these deaths.
fn table_of(deaths: &[(u32, u32)]) -> [(u32, u32); 32]
    requires { length deaths.now ≤ 32 }
    ensures { take (length deaths.now) result ≡ deaths.now }
{
    let mut table = [(0, 0); 32];
    table[..deaths.len()].copy_from_slice(deaths);
    table
}

impl BeadSetup {
    /// A case, with the ranks that die, rising, and how many events each has by then.
    pub fn new(
        ranks: u32,
        beads: u32,
        steps: u32,
        interval: u32,
        shift: u32,
        deaths: &[(u32, u32)],
    ) -> Self
        requires some_rank { 1 ≤ ranks }
        requires ranks_fit { ranks ≤ 32 }
        requires beads_fit { beads ≤ 32 }
        requires steps_fit { steps ≤ 128 }
        requires shift_fits { shift ≤ 1000 }
        requires some_interval { 1 ≤ interval }
        requires interval_fits { interval ≤ 128 }
        requires dying_fit { length deaths.now ≤ 32 }
        requires deaths_below { All (λ death. death.0 < ranks) deaths.now }
        requires deaths_rise { IsStrictlyIncreasing (map (λ death. death.0) deaths.now) }
        ensures ranks { result.ranks ≡ ranks }
        ensures beads { result.beads ≡ beads }
        ensures steps { result.steps ≡ steps }
        ensures interval { result.interval ≡ interval }
        ensures shift { result.shift ≡ shift }
        ensures deaths { take result.dying result.deaths ≡ deaths.now }
    {
        let table = table_of(deaths);
        BeadSetup {
            ranks,
            beads,
            steps,
            interval,
            shift,
            deaths: table,
            dying: deaths.len(),
        }
    }

    /// How many ranks there are: 1 to 32.
    pub fn ranks(&self) -> u32
        ensures value { result ≡ self.now.ranks }
        ensures within { result ≤ 32 }
    {
        self.ranks
    }

    /// How many beads the row has: at most 32.
    pub fn beads(&self) -> u32
        ensures value { result ≡ self.now.beads }
        ensures within { result ≤ 32 }
    {
        self.beads
    }

    /// The time at which the run ends.
    pub fn steps(&self) -> u32
        ensures { result ≡ self.now.steps }
    {
        self.steps
    }

    /// How much time lies between two snapshots.
    pub fn interval(&self) -> u32
        ensures { result ≡ self.now.interval }
    {
        self.interval
    }

    /// The shift in the choice of buddies.
    pub fn shift(&self) -> u32
        ensures { result ≡ self.now.shift }
    {
        self.shift
    }

    /// The ranks that die, rising, and how many events each has by then.
    pub fn dies(&self) -> &[(u32, u32)]
        ensures { result.now ≡ take self.now.dying self.now.deaths }
    {
        &self.deaths[..self.dying]
    }
}
