// The lines on standard output: a name and a number. What cannot be written is let go, and the next is tried.
use bench::Replayed;

// the descriptor of standard output
const STDOUT_FILENO: i32 = 1;

// Each field under its name, then each register that is not 0. No plainer by one table for both: the result has words without
// names, these lines have names.
pub fn print(found: &Replayed) {
    let counts = found.counts;
    let fields = [
        ("accepted ", counts.accepted),
        ("refused ", counts.refused),
        ("committed ", counts.committed),
        ("steals ", counts.steals),
        ("dropped ", counts.dropped),
        ("rate ", found.rate),
        ("halt ", found.halt),
    ];
    for (name, value) in fields {
        decimal(name, value);
    }
    hexadecimal("next ", found.next);
    registers(&found.registers)
}

// x0 has no line
fn registers(values: &[u32; 32]) {
    for (k, value) in values.iter().enumerate().skip(1) {
        if *value != 0 {
            text("x");
            io::print_decimal(STDOUT_FILENO, k as u64);
            hexadecimal(" ", *value);
        }
    }
}

pub fn decimal(name: &str, value: u32) {
    text(name);
    io::print_decimal(STDOUT_FILENO, value as u64);
    text("\n");
}

fn hexadecimal(name: &str, value: u32) {
    text(name);
    io::print_hex(STDOUT_FILENO, value as u64, 8);
    text("\n");
}

fn text(text: &str) {
    io::write_all(STDOUT_FILENO, text.as_bytes());
}
