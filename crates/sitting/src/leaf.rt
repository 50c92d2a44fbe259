use mission::node::Target;

// A skill leaf: its skill, its device and where its mark goes.
#[derive(Clone, Copy)]
pub(crate) struct SkillLeaf {
    pub(crate) skill: u8,
    pub(crate) device: Option<u8>,
    pub(crate) target: Target,
}
