// Set-up and refusal 5 from outside: machines over the corners of W, N and the lengths, and machines with one number
// damaged. What is to be expected is written here from document 01, apart from the code under test.
#![tactic(auto)]

mod cases;
mod corners;
mod entry_damage;
mod instruction_cases;
mod judging;
mod limits;
mod number_damage;
mod samples;
mod setups;
mod store_cases;
mod table_damage;

use judging::Trial;

// What is damaged. No plainer otherwise: by `impl Fn` each row is a call of its own, by `dyn` each has a borrow more.
const DAMAGES: [(&str, fn(&mut Trial)); 24] = [
    ("undamaged", number_damage::none),
    ("W", number_damage::windows),
    ("N", number_damage::registers),
    ("program length", number_damage::programs),
    ("data length", number_damage::bytes),
    ("count", number_damage::counts),
    ("head of registers", number_damage::register_heads),
    ("head of names", number_damage::name_heads),
    ("halt cause", number_damage::halts),
    ("fetch and next address", number_damage::addresses),
    ("links of registers", table_damage::register_links),
    ("links of names", table_damage::name_links),
    ("physical map", table_damage::physical),
    ("names of the general map", table_damage::map_names),
    ("registers of the general map", table_damage::map_registers),
    ("valid bits", table_damage::valid_bits),
    ("values", table_damage::values),
    ("instructions", entry_damage::instructions),
    ("no instruction", entry_damage::no_instruction),
    ("destination, name, previous", entry_damage::numbers),
    ("operands", entry_damage::operands),
    ("causes", entry_damage::causes),
    ("stores", entry_damage::stores),
    ("addresses and values of an entry", entry_damage::words),
];

// A line that cannot be written is let go, and those after it are tried.
fn main(rt: HostRuntime) {
    setups::test(&rt);
    for (name, damage) in DAMAGES {
        corners::over(&rt, name, damage);
    }
}
