// The law over every log of calls, and what the margins of a check tell.
ghost use Rattle.planner.specs.Checks.{MarginsAsMany, MarginsTell, MetWhereNoneIsBelow, MetWhereOrdersMeet};

// What the margins tell: a margin is below zero exactly where its delay is late, and all is met exactly where none is; that is where the
// orders meet the net.
pub fn margins_law()
    ensures count { MarginsAsMany }
    ensures tell { MarginsTell }
    ensures below { MetWhereNoneIsBelow }
    ensures orders { MetWhereOrdersMeet }
{}
