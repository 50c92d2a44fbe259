ghost use Rattle.mission.specs.Lawful.{Lawful};
ghost use Rattle.mission.specs.Shapes.{shape};

use crate::outline::Outline;

// A lawful mission: every value of this type is one tree by the rules.
#[derive(Clone, Copy)]
pub struct Mission {
    pub(crate) outline: Outline,
    ghost lawful: { Lawful (shape outline) },
}
