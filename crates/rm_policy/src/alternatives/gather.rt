//! The terms of a policy.
ghost use Rattle.std.specs.Prelude.{◌≡◌, OnOk};
ghost use Rattle.rm_policy.specs.Alternatives.Limits.{Mentions, OneMentions};
ghost use Rattle.rm_policy.specs.Alternatives.Masks.{Gathered};
ghost use Rattle.rm_policy.specs.Alternatives.Sets.{Rises};
ghost use Rattle.rm_policy.specs.Alternatives.Terms.{term_cmp};
ghost use Rattle.rm_policy.specs.Alternatives.Tree.{policy_view, policies_view};

use crate::alternatives::order::insert;
use crate::alternatives::policy::Policy;
use crate::alternatives::term::Term;
use rm_base::Memory;

/// Puts the terms of a policy to others that rise.
#[cycle(gathering)]
pub(crate) fn gather(policy: &Policy, terms: &mut Vec<Term>) -> Result<(), Memory>
    ensures { OnOk result (Rises term_cmp terms.old.items
        → Gathered (Mentions (policy_view policy.now)) terms.old.items terms.new.items) }
{
    match policy {
        Policy::Assert(term, _) => insert(terms, term),
        Policy::ExactlyOne(policies) => {
            gather_each(policies.items.as_slice(), terms)?;
            Ok(())
        }
        Policy::All(policies) => {
            gather_each(policies.items.as_slice(), terms)?;
            Ok(())
        }
    }
}

#[cycle(gathering)]
fn gather_each(policies: &[Policy], terms: &mut Vec<Term>) -> Result<(), Memory>
    ensures { OnOk result (Rises term_cmp terms.old.items
        → Gathered (OneMentions (policies_view policies.now)) terms.old.items terms.new.items) }
{
    for policy in policies {
        gather(policy, terms)?;
    }
    Ok(())
}
