ghost use Rattle.entry.specs.Counts.{count_meets, count_takes, count_makes};

use crate::kind::Entry;
use crate::parts::{Count, CountThreshold, Mark};

impl Entry for Count {
    type Threshold = CountThreshold;

    type Share = Mark;

    ghost meeting = { count_meets };

    ghost taking = { count_takes };

    ghost making = { count_makes };

    fn meets(self, threshold: CountThreshold) -> bool {
        threshold.least.value <= self.value
    }

    fn take(self, share: Mark) -> Option<Count> {
        Count::new(self.value + share.value).ok()
    }

    fn first(share: Mark) -> Count {
        Count { value: share.value }
    }
}
