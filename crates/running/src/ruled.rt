// A running operation that keeps the written rule.
ghost use Rattle.running.specs.Ruled.{Ruled};

use crate::Op;

// R8.10: every running operation that a start hands out is one, and every one that a step hands back which is no BadCall.
#[derive(Clone, Copy)]
pub struct RuledOp {
    pub op: Op,
    pub ghost ruled: { Ruled op },
}
