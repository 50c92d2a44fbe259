// The numbers of a line held to their ranges.
ghost use Rattle.std.specs.Prelude.{◌≡◌, Ok, Err, true, false, pos, MatchResult};
ghost use Rattle.std.specs.Option.{option_map};
ghost use Rattle.text.specs.Numeral.{within};
ghost use Rattle.mission.specs.Lines.{ranged, raw as raw_of, device_ranged, target_ranged, raw_target, RangeJudged, Covers};
ghost use Rattle.mission.specs.declared.raw.RawNode.TheVariants.{Skill as RSkill, Count as RCount, Ability as RAbility};
ghost use Rattle.mission.specs.declared.flaw.Flaw.TheVariants.{Range as OutOfRange};

use crate::flaw::Flaw;
use crate::node::{Node, Target};
use crate::raw::{RawNode, RawTarget};
use entry::parts::{AbilityThreshold, CountThreshold, Weight};

// The number, where it lies from `low` to `high`; the type has each number of that range.
pub(crate) fn in_range<T: TryFrom<i32>>(z: i32, low: i32, high: i32) -> Result<T, Flaw>
where
    T::Error: Drop,
    requires { Covers T.try_from_gives low high }
    ensures { MatchResult result (λ n. T.try_from_gives z (Ok n) × (within low high z ≡ true)) (λ e. (e ≡ OutOfRange) × (within low high z ≡ false)) }
{
    if !(low..=high).contains(&z) {
        return Err(Flaw::Range);
    }
    T::try_from(z).map_err(|_| Flaw::Range)
}

fn device_of(device: Option<i32>) -> Result<Option<u8>, Flaw>
    ensures { RangeJudged device_ranged (option_map pos) device result }
{
    device.map(|z| in_range(z, 0, 31)).transpose()
}

fn target_of(target: RawTarget) -> Result<Target, Flaw>
    ensures { RangeJudged target_ranged raw_target target result }
{
    match target {
        RawTarget::Nowhere => Ok(Target::Nowhere),
        RawTarget::Count { key } => {
            let key = in_range(key, 0, 31)?;
            Ok(Target::Count { key })
        }
        RawTarget::Ability { key, weight } => {
            let key = in_range(key, 0, 31)?;
            let weight = Weight::new(in_range(weight, 1, 100)?)?;
            Ok(Target::Ability { key, weight })
        }
    }
}

fn skill_node(skill: i32, device: Option<i32>, target: RawTarget) -> Result<Node, Flaw>
    ensures { RangeJudged ranged raw_of (RSkill skill device target) result }
{
    Ok(Node::Skill {
        skill: in_range(skill, 0, 63)?,
        device: device_of(device)?,
        target: target_of(target)?,
    })
}

fn count_node(key: i32, least: i32) -> Result<Node, Flaw>
    ensures { RangeJudged ranged raw_of (RCount key least) result }
{
    let key = in_range(key, 0, 31)?;
    let least = CountThreshold::new(least)?;
    Ok(Node::Count { key, least })
}

fn ability_node(key: i32, least: i32, over: i32) -> Result<Node, Flaw>
    ensures { RangeJudged ranged raw_of (RAbility key least over) result }
{
    let key = in_range(key, 0, 31)?;
    let least = AbilityThreshold::new(least, in_range(over, 1, 100)?)?;
    Ok(Node::Ability { key, least })
}

// The node whose line this is, where every number of it is in its range.
pub(crate) fn node_of(raw: RawNode) -> Result<Node, Flaw>
    ensures { RangeJudged ranged raw_of raw result }
{
    match raw {
        RawNode::Group { kind, kids } => {
            let kids = in_range(kids, 1, 32)?;
            Ok(Node::Group { kind, kids })
        }
        RawNode::Par { kids, need } => {
            let kids = in_range(kids, 1, 32)?;
            let need = in_range(need, 1, 32)?;
            Ok(Node::Par { kids, need })
        }
        RawNode::Not => Ok(Node::Not),
        RawNode::Loop { kind, times } => {
            let times = in_range(times, 1, 60_000)?;
            Ok(Node::Loop { kind, times })
        }
        RawNode::Skill {
            skill,
            device,
            target,
        } => skill_node(skill, device, target),
        RawNode::Count { key, least } => count_node(key, least),
        RawNode::Ability { key, least, over } => ability_node(key, least, over),
    }
}
