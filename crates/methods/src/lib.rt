// The methods by their numbers: what each needs and allows, and its runs. A later method has a variant here, and an arm in each `match`.
#![tactic(auto)]

ghost use Rattle.std.specs.Prelude.{◌≡◌, true, map, ◌^◌, ◌≤◌, length};
ghost use Rattle.buffers.specs.Written.{in_front};
ghost use Rattle.lookup.specs.Bounded.{Bounded};
ghost use Rattle.lookup.specs.Method.{class_width};
ghost use Rattle.lookup.specs.Methods.{known as methods_known, method_of};
ghost use Rattle.lookup.specs.Call.{answer, scratch_after as call_scratch_after, log_of, log_length as call_log_length, scratch_length as call_scratch_length};
ghost use Rattle.methods.specs.Numbered.{defined, Numbered};

use lookup::Case;

#[derive(Clone, Copy)]
enum Method {
    Two,
    Three,
    Five,
}

// The method that a number finds.
#[tactic(auto, unfolding(lookup::specs::Methods::known, lookup::specs::Methods::among, lookup::specs::Methods::method_of, lookup::specs::Methods::found))]
fn numbered(number: u32) -> Option<Method>
    ensures { Numbered number result }
{
    match number {
        2 => Some(Method::Two),
        3 => Some(Method::Three),
        5 => Some(Method::Five),
        _ => None,
    }
}

// The one that a known number finds.
fn known_method(number: u32) -> Method
    requires { methods_known number ≡ true }
    ensures { method_of number ≡ defined result }
{
    numbered(number).unwrap()
}

// Whether some method has the number.
pub fn known(method: u32) -> bool
    ensures { result ≡ methods_known method }
{
    numbered(method).is_some()
}

// The largest b that the method takes.
pub fn b_most(method: u32) -> u32
    ensures { result ≡ (method_of method).b_most }
{
    match numbered(method) {
        Some(Method::Two) => 0,
        Some(Method::Three) => 1,
        Some(Method::Five) => 0,
        None => 0,
    }
}

// The largest r3 that the method takes; how many bytes of scratch and how many log entries it needs. The width has been checked, so these
// have a `requires`.
pub fn r3_most(method: u32, n: u32) -> u32
    requires { n ≤ 8 }
    ensures { result ≡ (method_of method).r3_most (2 ^ n) }
{
    let inputs = bits::power(n);
    match numbered(method) {
        Some(Method::Two) => inputs - 1,
        Some(Method::Three) => inputs - 1,
        Some(Method::Five) => 0,
        None => 0,
    }
}

#[tactic(auto, unfolding(lookup::specs::Call::scratch_length))]
pub fn scratch_length(method: u32, n: u32) -> u16
    requires { n ≤ 8 }
    ensures { result ≡ call_scratch_length method n }
{
    let inputs = bits::power(n) as u16;
    match numbered(method) {
        Some(Method::Two) => inputs,
        Some(Method::Three) => inputs,
        Some(Method::Five) => 2 * inputs,
        None => 0,
    }
}

#[tactic(auto, unfolding(lookup::specs::Call::log_length))]
pub fn log_length(method: u32, n: u32) -> usize
    requires { n ≤ 8 }
    ensures { result ≡ call_log_length method n }
{
    let turns = bits::power(n) as u16;
    match numbered(method) {
        Some(Method::Two) => method2::log_length(turns),
        Some(Method::Three) => method3::log_length(turns),
        Some(Method::Five) => method5::log_length(turns),
        None => 0,
    }
}

// The widths of the masks r1, r2, r3, s1, s2 and b, over which a choice runs. The method has been checked, so it has a `requires`.
pub fn mask_widths(method: u32, n: u32, m: u32) -> [u32; 6]
    requires { methods_known method ≡ true }
    ensures { result ≡ map (class_width n m) (method_of method).mask_classes }
{
    match known_method(method) {
        Method::Two => [n, n, n, m, m, 0],
        Method::Three => [n, n, n, m, m, 1],
        Method::Five => [n, n, 0, m, m, 0],
    }
}

// The method's run. The call has checked the case and measured the buffers, so these have a `requires`.
#[tactic(auto, unfolding(lookup::specs::Call::scratch_length, lookup::specs::Call::log_length, lookup::specs::Call::scratch_after, lookup::specs::Call::log_of, lookup::specs::Call::answer))]
pub fn run_logged(case: Case, table: &[u8], scratch: &mut [u8], log: &mut [u32]) -> u8
    requires method_value { methods_known case.method ≡ true }
    requires bounded { Bounded case }
    requires table_len { length table.now ≡ 2 ^ case.n }
    requires n_in_bounds { call_scratch_length case.method case.n ≤ length scratch.old }
    requires n_in_bounds_2 { call_log_length case.method case.n ≤ length log.old }
    ensures value { result ≡ answer case table.now }
    ensures scratch_after { scratch.new ≡ call_scratch_after case table.now scratch.old }
    ensures log_after { log.new ≡ in_front (log_of case table.now) log.old }
{
    match known_method(case.method) {
        Method::Two => method2::logged::run(case, table, scratch, log),
        Method::Three => method3::logged::run(case, table, scratch, log),
        Method::Five => method5::logged::run(case, table, scratch, log),
    }
}

#[tactic(auto, unfolding(lookup::specs::Call::scratch_length, lookup::specs::Call::scratch_after, lookup::specs::Call::answer))]
pub fn run(case: Case, table: &[u8], scratch: &mut [u8]) -> u8
    requires method_value { methods_known case.method ≡ true }
    requires bounded { Bounded case }
    requires table_len { length table.now ≡ 2 ^ case.n }
    requires n_in_bounds { call_scratch_length case.method case.n ≤ length scratch.old }
    ensures value { result ≡ answer case table.now }
    ensures scratch_after { scratch.new ≡ call_scratch_after case table.now scratch.old }
{
    match known_method(case.method) {
        Method::Two => method2::run(case, table, scratch),
        Method::Three => method3::run(case, table, scratch),
        Method::Five => method5::run(case, table, scratch),
    }
}
