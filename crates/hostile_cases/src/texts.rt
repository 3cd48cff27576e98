//! The files that the calls read, and what is written of them.

/// A specification without declarations, of which `prove` writes a report without claims.
pub const EMPTY: &str = "spike 1\n";

/// Addition, and a goal that it proves.
pub const PLUS_ZERO: &str = "spike 1\n\
sort Nat = zero | succ(Nat)\n\
fun plus(Nat, Nat) : Nat\n\
rule plus(zero, y) = y\n\
rule plus(succ(x), y) = succ(plus(x, y))\n\
goal plus_zero : plus(x, zero) = x\n";

/// Addition, and a goal that is false.
pub const BAD: &str = "spike 1\n\
sort Nat = zero | succ(Nat)\n\
fun plus(Nat, Nat) : Nat\n\
rule plus(zero, y) = y\n\
rule plus(succ(x), y) = succ(plus(x, y))\n\
goal bad : plus(x, y) = plus(x, x)\n";

/// The first piece of a report with the usual number of steps.
pub const HEADER: &str = "spike-report 1\nsteps 1000\n";

/// The claim on the goal of [`PLUS_ZERO`].
pub const PROVED: &str = "proved plus_zero nodes 6\n\
cover ?0 [zero, succ(_)]\n\
rule c1.l 1\n\
rule c1.l 2\n\
trivial c1\n\
decompose c1\n\
subsume 0 [?0]\n";

/// The claim on the goal of [`BAD`]. The values are tried with the last variable changing first.
pub const REFUTED: &str = "refuted bad index 1 with 2\nx = zero\ny = succ(zero)\n";

/// The last piece of a report.
pub const DONE: &str = "done\n";

/// The whole report of [`PLUS_ZERO`].
pub const PLUS_ZERO_REPORT: &str = "spike-report 1\n\
steps 1000\n\
proved plus_zero nodes 6\n\
cover ?0 [zero, succ(_)]\n\
rule c1.l 1\n\
rule c1.l 2\n\
trivial c1\n\
decompose c1\n\
subsume 0 [?0]\n\
done\n";

/// Insertion into a sorted list, with two goals that are true.
pub const INSERTION: &str = "spike 1\n\
sort Nat = zero | succ(Nat)\n\
sort List = nil | cons(Nat, List)\n\
fun le(Nat, Nat) : Bool\n\
fun sorted(List) : Bool\n\
fun insert(Nat, List) : List\n\
rule le(zero, y) = true\n\
rule le(succ(x), zero) = false\n\
rule le(succ(x), succ(y)) = le(x, y)\n\
rule sorted(nil) = true\n\
rule sorted(cons(x, nil)) = true\n\
rule sorted(cons(x, cons(y, l))) = sorted(cons(y, l)) if le(x, y)\n\
rule sorted(cons(x, cons(y, l))) = false unless le(x, y)\n\
rule insert(x, nil) = cons(x, nil)\n\
rule insert(x, cons(y, l)) = cons(x, cons(y, l)) if le(x, y)\n\
rule insert(x, cons(y, l)) = cons(y, insert(x, l)) unless le(x, y)\n\
goal le_total : le(x, y) = false => le(y, x) = true\n\
goal insert_sorted : sorted(l) = true => sorted(insert(x, l)) = true\n";

/// A function of which two rules meet at one list of values.
pub const OVERLAP: &str = "spike 1\n\
sort Nat = zero | succ(Nat)\n\
fun max(Nat, Nat) : Nat\n\
rule max(zero, y) = y\n\
rule max(x, zero) = x\n\
rule max(succ(x), succ(y)) = succ(max(x, y))\n";

/// A function with a variable twice on a left side.
pub const NOT_LINEAR: &str = "spike 1\n\
sort Nat = zero | succ(Nat)\n\
fun eq(Nat, Nat) : Bool\n\
rule eq(x, x) = true\n";
