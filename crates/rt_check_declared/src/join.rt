//! What is judged apart, joined.

ghost use Rattle.rt_check_declared.specs.Verdicts.{Verdict, Answers};
ghost use Rattle.rt_check_declared.specs.Verdicts as spec;
ghost use Rattle.std.specs.Prelude.{List};

use rt_check_faults::CheckFault;
use rt_words::List;

/// Two that are judged apart, or the fault that counts.
pub fn both<T: Drop, U: Drop>(
    left: Result<T, CheckFault>,
    right: Result<U, CheckFault>,
) -> Result<(T, U), CheckFault>
    ensures { (l : Verdict T) → (r : Verdict U) → Answers (λ x. x) left l → Answers (λ x. x) right r → Answers (λ x. x) result (spec.both l r) }
{
    rt_check_faults::both(left, right)
}

/// One more, judged apart from those before it, or the fault that counts.
pub fn after<T: Drop>(
    so_far: Result<List<T>, CheckFault>,
    next: Result<T, CheckFault>,
) -> Result<List<T>, CheckFault>
    ensures { (xs : Verdict (List T)) → (x : Verdict T) → Answers (λ x. x) so_far xs → Answers (λ x. x) next x → Answers (λ x. x) result (spec.after xs x) }
{
    rt_check_faults::after(so_far, next)
}
