ghost use Rattle.std.specs.Prelude.{◌≡◌, ◌≤◌, MatchOption};

/// One of 1 to 8 shards of an opening. Shard `index` of `count`, both counted from 1, has every
/// `count`-th job, beginning with job number `index`.
#[derive(Clone, Copy, Debug, PartialEq, Eq)]
pub struct Shard {
    index: u32,
    count: u32,
    ghost positive: { 1 ≤ index },
    ghost within: { index ≤ count },
    ghost few: { count ≤ 8 },
}

impl Shard {
    ghost use Rattle.dd_front_jobs.specs.ShardNumbers.{AreShardNumbers, HasNumbers};

    /// Returns shard `index` of `count`, and None if there is none.
    pub fn new(index: u32, count: u32) -> Option<Shard>
        ensures { MatchOption result (¬ AreShardNumbers index count)
            (λ shard. HasNumbers shard index count) }
    {
        if index < 1 || index > count || count > 8 {
            return None;
        }
        Some(Shard { index, count })
    }

    /// Returns the number of the shard, counted from 1.
    pub fn index(self) -> u32
        ensures { result ≡ self.index }
    {
        self.index
    }

    /// Returns the number of shards.
    pub fn count(self) -> u32
        ensures { result ≡ self.count }
    {
        self.count
    }
}
