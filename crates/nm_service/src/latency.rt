ghost use Rattle.nm_service.specs.Latency.{IsBucketOf};

/// How many buckets times are counted in.
pub const LATENCY_BUCKETS: usize = LAST_BUCKET + 1;

/// The bucket of each time of 2^24 microseconds or more.
const LAST_BUCKET: usize = 25;

/// From how many microseconds on a time is in the last bucket.
const LAST_FROM: u64 = 1 << 24;

/// The bucket of a time of so many microseconds: how many bits their number has, or 25 at most.
pub fn latency_bucket(microseconds: u64) -> usize
    ensures { IsBucketOf microseconds result }
{
    if microseconds >= LAST_FROM {
        return LAST_BUCKET;
    }
    if microseconds == 0 {
        return 0;
    }
    microseconds.ilog2() as usize + 1
}
