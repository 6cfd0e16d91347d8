// Damage to the numbers of a machine that stand in no table.
use crate::cases::Expected;
use crate::judging::Trial;
use crate::limits::{about, above, names_of};
use renaming::Core;

// Nothing is damaged.
pub fn none(t: &mut Trial) {
    t.change(Expected::InRange, |_| {});
}

// with empty pools, so that W 0 and N 31 are wrong by themselves and not by the heads
fn without_pools<F: Fn(&mut Core, u8)>(t: &mut Trial, in_range: u8, refused: &[u8], set: F)
    requires { F.IsAlwaysCallable set }
{
    let set_alone = |m: &mut Core, number: u8| {
        m.free_registers.head = 0;
        m.free_names.head = 0;
        set(m, number);
    };
    t.each(Expected::InRange, &[in_range], &set_alone);
    t.each(Expected::Refused, refused, &set_alone);
}

pub fn windows(t: &mut Trial) {
    let window = t.machine.setup.window;
    without_pools(t, window, &[0, 65, 255], |m, n| m.setup.window = n);
}

pub fn registers(t: &mut Trial) {
    let registers = t.machine.setup.registers;
    without_pools(
        t,
        registers,
        &[0, 31, 96, 255],
        |m, n| m.setup.registers = n,
    );
}

pub fn programs(t: &mut Trial) {
    let set = |m: &mut Core, program: u16| m.setup.program = program;
    t.each(Expected::Refused, &[0, 3, 6, 16_385, 16_388, 65_532], set);
    t.each(Expected::InRange, &[4, 8, 16_384], set);
}

// A store of the samples needs a data word, unless the window is too short to hold it.
pub fn bytes(t: &mut Trial) {
    let set = |m: &mut Core, bytes: u16| m.setup.bytes = bytes;
    t.each(Expected::Refused, &[16_385, 65_535], set);
    t.each(Expected::InRange, &[4, 16_384], set);
    let holds_a_store = t.machine.count > 2;
    t.each(Expected::refused_if(holds_a_store), &[3, 0], set);
}

// An empty place is no entry.
pub fn counts(t: &mut Trial) {
    let set = |m: &mut Core, count: u8| m.count = count;
    let window = t.machine.setup.window;
    t.each(Expected::Refused, &[above(window), 65, 255], set);
    t.each(Expected::InRange, &[0], set);
    let is_empty = t.machine.count == 0;
    t.each(Expected::refused_if(is_empty), &[1, window], set);
}

fn heads<F: Fn(&mut Core, u8)>(t: &mut Trial, limit: u8, set: F)
    requires { F.IsAlwaysCallable set }
{
    for head in about(limit) {
        t.change(head.expected, |m| set(m, head.value));
    }
}

pub fn register_heads(t: &mut Trial) {
    let registers = t.machine.setup.registers;
    heads(t, registers, |m, head| m.free_registers.head = head);
}

pub fn name_heads(t: &mut Trial) {
    let names = names_of(&t.machine);
    heads(t, names, |m, head| m.free_names.head = head);
}

pub fn halts(t: &mut Trial) {
    let set = |m: &mut Core, cause: u8| m.halt.cause = cause;
    t.each(Expected::Refused, &[8, 255], set);
    t.each(Expected::InRange, &[1, 7], set);
}

pub fn addresses(t: &mut Trial) {
    let addresses = [(0xffff_ffff, 0), (0, 0xffff_ffff), (2, 16_385)];
    t.each(Expected::Ignored, &addresses, |m, (fetch, next)| {
        m.fetch = fetch;
        m.next = next;
    });
}
