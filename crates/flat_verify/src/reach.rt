//! What is reached from the number 0 by rules, each of which leads from one number to another.
//!
//! Rules stand in stretches: most of them lead from a row of neighbours to a row of neighbours.
ghost use Rattle.std.specs.Prelude.{◌≡◌, ◌<◌, ◌≤◌, ◌++◌, ◌∷◌, [], ℕ, true, false, length, IfOk, OnOk};
ghost use Rattle.flat_verify.specs.Reach.{rule, Reached, rules_from, rules_of, IsBelow, AreBelow, is_marked, led_by, led_by_all, unmarked};

use std::alloc::{AllocError, Global};

/// The rules from `from` to `to`, from the number after `from` to that after `to`, and so on, `count` in all.
#[derive(Clone, Copy)]
pub struct Stretch {
    pub from: usize,
    pub to: usize,
    pub count: usize,
}

// Marks where the rule leads, if where it comes from is marked; whether that was not marked before.
fn led_by(marks: &mut [bool], from: usize, to: usize) -> bool
    requires { to < length marks.old }
    ensures led { marks.new ≡ led_by (rule from to) marks.old }
    ensures same { result ≡ false → marks.new ≡ marks.old }
    ensures fewer { result ≡ true → unmarked marks.new < unmarked marks.old }
{
    if from < marks.len() && marks[from] && !marks[to] {
        marks[to] = true;
        return true;
    }
    false
}

fn lead_stretch(marks: &mut [bool], stretch: Stretch) -> bool
    requires { IsBelow (length marks.old) stretch }
    ensures led { marks.new ≡ led_by_all (rules_from stretch.from stretch.to stretch.count) marks.old }
    ensures same { result ≡ false → marks.new ≡ marks.old }
    ensures fewer { result ≡ true → unmarked marks.new < unmarked marks.old }
{
    let mut changed = false;
    for i in 0..stretch.count {
        if led_by(marks, stretch.from + i, stretch.to + i) {
            changed = true;
        }
    }
    changed
}

fn led_by_all(marks: &mut [bool], stretches: &[Stretch]) -> bool
    requires { AreBelow (length marks.old) stretches.now }
    ensures led { marks.new ≡ led_by_all (rules_of stretches.now) marks.old }
    ensures same { result ≡ false → marks.new ≡ marks.old }
    ensures fewer { result ≡ true → unmarked marks.new < unmarked marks.old }
{
    let mut changed = false;
    for stretch in stretches {
        if lead_stretch(marks, *stretch) {
            changed = true;
        }
    }
    changed
}

// Goes over the rules until one pass marks nothing.
fn settle(marks: &mut [bool], stretches: &[Stretch])
    requires below { AreBelow (length marks.old) stretches.now }
    requires first { is_marked marks.old 0 ≡ true }
    requires reached { (n : ℕ) → is_marked marks.old n ≡ true → Reached (rules_of stretches.now) n }
    ensures length { length marks.new ≡ length marks.old }
    ensures reached { (n : ℕ) → is_marked marks.new n ≡ true → Reached (rules_of stretches.now) n }
    ensures marked { (n : ℕ) → Reached (rules_of stretches.now) n → is_marked marks.new n ≡ true }
{
    'pass: loop {
        if !led_by_all(marks, stretches) {
            return;
        }
    }
}

// The same from marks that are all false.
fn mark(marks: &mut [bool], stretches: &[Stretch])
    requires below { AreBelow (length marks.old) stretches.now }
    requires some { 0 < length marks.old }
    requires none { (n : ℕ) → is_marked marks.old n ≡ false }
    ensures length { length marks.new ≡ length marks.old }
    ensures reached { (n : ℕ) → is_marked marks.new n ≡ true → Reached (rules_of stretches.now) n }
    ensures marked { (n : ℕ) → Reached (rules_of stretches.now) n → is_marked marks.new n ≡ true }
{
    marks[0] = true;
    settle(marks, stretches);
}

/// Which of the first `count` numbers are reached: each pass goes over all rules once, until one finds nothing new. So it
/// takes time in the product of the number of rules and of the passes; passes are few where rules stand in the order in
/// which they are used, and never more than there are numbers.
pub fn reached(alloc: Global, stretches: &[Stretch], count: usize) -> Result<Vec<bool>, AllocError>
    requires below { AreBelow count stretches.now }
    requires some { 0 < count }
    ensures length { IfOk result (λ marks. length marks.items ≡ count) }
    ensures reached { IfOk result (λ marks. (n : ℕ) → is_marked marks.items n ≡ true → Reached (rules_of stretches.now) n) }
    ensures marked { IfOk result (λ marks. (n : ℕ) → Reached (rules_of stretches.now) n → is_marked marks.items n ≡ true) }
{
    let mut marks = vec![in alloc; false; count]?;
    mark(&mut marks, stretches);
    Ok(marks)
}
