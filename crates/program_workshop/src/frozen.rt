//! A trace that freezes a domain, and what it prints.

/// Three phases of `TWO_LANES`. Lane 0 makes an object in domain 0, which is frozen then. Both lanes read it, and neither writes it. Then lane 1
/// gets it, and writes.
pub const FROZEN: &str =
    "phase\nlane 0\nnew 0 0 1\nset 0 0 0 7\nlane 1\nfreeze 0\nend\nphase\nlane 0\nwho 0 0\nset 0 0 0 8\nclear 0 0\nnew 0 1 0\nlane 1\nload 0 0 0 1 0\nwho 1 0\ncopy 0 0 1 1\nlen 1 1\nset 1 1 0 9\ngive 0 1\nend\nphase\nlane 0\nwho 0 0\nlane 1\nset 0 0 0 9\nload 1 1 0 1 0\nend\ndone\n";

/// What its phases print.
pub const READ: [&str; 3] = [
    "phase 1\nlane 0\nobj 0.1\nok\nlane 1\n",
    "phase 2\nlane 0\nobj 0.1\nfrozen\nfrozen\nfrozen\nlane 1\nnum 7\nnum 7\nok\nlen 1\nfrozen\n",
    "phase 3\nlane 0\nforeign\nlane 1\nok\nnum 9\n",
];
