// Indices that the entries of a root may not have.
use samples::plan::Plan;

pub enum Index {
    // Of a named stream, which has an entry of its own.
    Twice,
    // Of a free descriptor.
    OfFree,
    // Beyond the table.
    Beyond,
    Zero,
}

// The index of entry `e`.
fn index_of(plan: &Plan, e: usize) -> Option<u32> {
    Some(plan.entries.get(e)?.index)
}

impl Index {
    // One that no further entry may have.
    fn extra(&self, plan: &mut Plan) -> Option<u32> {
        match self {
            Index::Twice => {
                let e = plan.draws.below(plan.streams.named.len()) as usize;
                index_of(plan, e)
            }
            _ => {
                let right = index_of(plan, 0)?;
                self.wrong(plan, right)
            }
        }
    }

    // One that entry `x` may not have.
    fn other(&self, plan: &mut Plan, x: usize) -> Option<u32> {
        match self {
            Index::Twice => {
                let next = x.checked_add(1)?.checked_rem(plan.streams.named.len())?;
                index_of(plan, next)
            }
            _ => {
                let right = index_of(plan, x)?;
                self.wrong(plan, right)
            }
        }
    }

    // One that no entry may have.
    fn wrong(&self, plan: &mut Plan, right: u32) -> Option<u32> {
        match self {
            Index::OfFree => Some(u32::from(plan.draws.one_of(&plan.spares)?)),
            Index::Beyond => plan.draws.wrong_index(right, plan.descriptors),
            Index::Twice | Index::Zero => Some(0),
        }
    }

    // One entry more has such an index.
    pub fn add(&self, plan: &mut Plan) -> Option<()> {
        let v = self.extra(plan)?;
        let m = plan.streams.named.len();
        plan.entries.get_mut(m)?.index = v;
        plan.listed = m + 1;
        Some(())
    }

    // An entry, drawn, has such an index.
    pub fn change(&self, plan: &mut Plan) -> Option<()> {
        let x = plan.any_entry();
        let v = self.other(plan, x)?;
        plan.entries.get_mut(x)?.index = v;
        Some(())
    }
}
