// The binders around a place, as a contract sees them: the sorts that they range over, the innermost first.
ghost use Rattle.std.specs.Prelude.{◌≡◌, List, [], ◌∷◌, length, ltb};
ghost use Rattle.procap.specs.Lists.{nth};
ghost use Rattle.procap.specs.Tells.{pick};
ghost use Rattle.bl.specs.declared.Sort.{Sort};
ghost use Rattle.bl.specs.Formulas.{most_binders};
ghost use Rattle.formula.specs.Binders.{sorts_of, FewBinders};

use crate::terms::MOST_BINDERS;
use bl::Sort;
use std::marker::Model;

// The sorts of so many binders, the innermost last.
#[derive(Drop)]
pub struct Binders {
    count: usize,
    sorts: [Sort; MOST_BINDERS],
}

impl Model for Binders {
    ghost Value = { List Sort };

    ghost view = { λ b. sorts_of b.sorts b.count };

    ghost invariant = { λ b. FewBinders b.count };
}

impl Binders {
    // No binders.
    #[tactic(auto, unfolding(crate::specs::Binders::sorts_of, crate::specs::PutIn::stack))]
    pub(crate) fn none() -> Binders
        ensures { result ≡ [] }
    {
        Binders {
            count: 0,
            sorts: [Sort::Names; MOST_BINDERS],
        }
    }

    // One binder more inside the others, if that is no ninth.
    pub(crate) fn with(&self, sort: Sort) -> Option<Binders>
        ensures { result ≡ pick (ltb (length self.now) most_binders) (Some (sort ∷ self.now)) None }
    {
        let count = self.count;
        if MOST_BINDERS <= count {
            return None;
        }
        let mut sorts = self.sorts;
        sorts[count] = sort;
        Some(Binders {
            count: count + 1,
            sorts,
        })
    }

    // The sort of the binder that stands so far outward, if there is one.
    pub(crate) fn sort(&self, outward: usize) -> Option<Sort>
        ensures { result ≡ nth self.now outward }
    {
        if self.count <= outward {
            return None;
        }
        Some(self.sorts[self.count - 1 - outward])
    }
}
