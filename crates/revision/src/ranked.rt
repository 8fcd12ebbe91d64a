// Heads are totally ordered.
ghost use Rattle.revision.specs.HeadOrder.{heads_total};

use crate::Head;
use order::Ranked;

impl Ranked for Head {
    ghost total = { heads_total };
}
