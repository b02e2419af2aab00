// The worked policy: its rules, all of action 0, its tree, and its headers.

pub const RULES: [u32; 33] = [
    // Rule 0 is 10.0.0.0/8 to any, destination port 80, protocol 6.
    0x0a000000, 8, 0, 0, 0, 65535, 80, 80, 6, 6, 0,
    // Rule 1 is 10.1.0.0/16 to any, destination ports 0 to 1,023, protocol 6.
    0x0a010000, 16, 0, 0, 0, 65535, 0, 1023, 6, 6, 0,
    // Rule 2 is everything.
    0, 0, 0, 0, 0, 65535, 0, 65535, 0, 255, 0,
];

pub const NODES: [u32; 15] = [0, 167772159, 2, 5, 0, 1, 0, 184549375, 4, 5, 1, 3, 5, 4, 1];

pub const POOL: [u32; 5] = [2, 0, 1, 2, 2];

// A header from this source to 192.168.0.1, source port 40,000.
pub(crate) fn header(source: u32, port: u32, protocol: u32) -> [u32; 5] {
    [source, 0xc0a80001, 40000, port, protocol]
}

// One to port 80 over protocol 6.
pub(crate) fn web(source: u32) -> [u32; 5] {
    header(source, 80, 6)
}
