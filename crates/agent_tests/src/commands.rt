//! Commands over files in memory, and their answers.

use test_kit::lists::{MEASUREMENT, MEASUREMENT_LINE};
use test_kit::logs::HEADER;
use test_kit::samples::{
    EVENT_LINES, EXPECTED, HCRTM_LINE, HCRTM_LOG, LIST, LOG, LOG_LINE, MEASUREMENT_REGISTERS,
    PLACES, PRINTED, PRINTED_LINE, REPORT,
};

/// The files, by their names; `-` is standard input, and has `log` in hexadecimal.
pub static FILES: [(&str, &[u8]); 17] = [
    (
        "-",
        b"00000000 03000000 0000000000000000000000000000000000000000 21000000
        53706563204944204576656e74303300 00000000 00020002 01000000 0b002000 00
        04000000 04000000 01000000 0b00
        0000000000000000000000000000000000000000000000000000000000000000 04000000 00000000",
    ),
    ("log", LOG),
    ("list", LIST),
    ("values", EXPECTED),
    (
        "row",
        b"sha256 10 d54d476b0532a0a009e48de651cd01544e8d093d584ca3dbb93dd0f1b69b7cc4",
    ),
    ("header", HEADER),
    ("entry", MEASUREMENT),
    ("ten", MEASUREMENT_REGISTERS),
    ("four", LOG_LINE),
    ("digests", SHELL_DIGEST),
    ("printed", PRINTED),
    ("key", KEY),
    ("/bin/sh", b"abc"),
    ("names", b"/bin/sh\nentry\nprinted\n"),
    ("shell", b"/bin/sh\n"),
    ("started", HCRTM_LOG),
    ("line", MEASUREMENT_LINE),
];

/// Words, and the status and the output that they get.
pub struct Command {
    pub arguments: &'static [&'static str],
    pub status: u8,
    pub output: &'static [u8],
}

/// The public area of an attestation key of P-256, as `tpm2_createak -G ecc -g sha256 -s ecdsa -u` wrote it, and its name, by `-n`.
const KEY: &[u8] = b"\
\x00\x58\x00\x23\x00\x0b\x00\x05\x00\x72\x00\x00\x00\x10\x00\x18\x00\x0b\x00\x03\x00\x10\x00\x20\xef\xe5\x6e\xdf\xe2\x58\
\x22\x20\xd7\xb3\xf7\x39\x3b\xc3\x06\x1a\x8a\x3e\x08\xea\x2f\x06\x25\x2e\x5f\x19\x44\x87\x74\x68\x37\x85\x00\x20\xcf\x2b\
\x29\x86\xdb\xa9\xfd\x38\x4b\xe2\xa1\xcf\xc8\xee\xdf\x37\x57\x1a\x94\xa2\x81\x23\x57\x84\xb8\x1a\x0a\x10\xc0\xae\x9a\x9d";

const KEY_NAME: &[u8] = b"000b55660a0937bd86bbb4da300f3cc9a84b131184912cb72fcf5409aad30927450e\n";

/// PCR 10 after the boot aggregate of registers at reset, and `/bin/sh` with `abc`.
const SHELL_LINE: &[u8] =
    b"sha256 10 5fcef84d490a160058b8f1b7e33abea9f2df325f2b7ccb294d1d28f3459db9d5\n";

/// The digest of `/bin/sh` with `abc`, as `sha256sum` prints it.
const SHELL_DIGEST: &[u8] =
    b"ba7816bf8f01cfea414140de5dae2223b00361a396177a9cb410ff61f20015ad  /bin/sh\n";

/// What the log and its PCR 4 answer, beside the same log.
const BOOT_LINES: &[u8] = b"\
secure_boot unknown
firmware_version unknown
image 1 sha256 0000000000000000000000000000000000000000000000000000000000000000 claimed {\"separator\":0}
command unknown 8
command unknown 12 (kernel-config)
ima_policy unknown
boot_variable unknown
register 4 (boot-loader-code) alike all
";

/// The event of the log, whose digest is no hash of its data.
const EXPLAINED_LINES: &[u8] =
    b"algorithms sha256:32\n1 4 (boot-loader-code) EV_SEPARATOR claimed\n  {\"separator\":0}\n";

/// A measurement, with two workers.
pub const MEASURE: Command = Command {
    arguments: &["measure", "--print=registers", "header", "/bin/sh"],
    status: 0,
    output: SHELL_LINE,
};

/// Every command.
pub static COMMANDS: [Command; 21] = [
    Command {
        arguments: &[],
        status: 0,
        output: LOG_LINE,
    },
    Command {
        arguments: &["registers", "log"],
        status: 0,
        output: LOG_LINE,
    },
    Command {
        arguments: &["events", "log"],
        status: 0,
        output: EVENT_LINES,
    },
    Command {
        arguments: &["events", "--explain", "--expected", "values", "log"],
        status: 0,
        output: EXPLAINED_LINES,
    },
    Command {
        arguments: &["boot", "--expected", "four", "--before=log", "log"],
        status: 0,
        output: BOOT_LINES,
    },
    Command {
        arguments: &["show", "entry"],
        status: 0,
        output: MEASUREMENT_LINE,
    },
    Command {
        arguments: &["replay", "entry"],
        status: 0,
        output: MEASUREMENT_REGISTERS,
    },
    Command {
        arguments: &["replay", "--require=sha256:10", "entry", "ten"],
        status: 0,
        output: b"\
entries 1
compared 4
sha1 10 match
sha256 10 match
sha384 10 match
sha512 10 match
verdict match
",
    },
    Command {
        arguments: &["expected", "printed"],
        status: 0,
        output: PRINTED_LINE,
    },
    Command {
        arguments: &["key", "--print=name", "key"],
        status: 0,
        output: KEY_NAME,
    },
    Command {
        arguments: &["verify", "log", "list", "values"],
        status: 1,
        output: REPORT,
    },
    Command {
        arguments: &["verify", "--explain", "log", "list", "values"],
        status: 1,
        output: REPORT,
    },
    Command {
        arguments: &["verify", "--prefix", "--save=known", "log", "list", "row"],
        status: 0,
        output: b"\
events 1 locality 0
entries 3
confirmed 3 of 3 entries
boot_aggregate good
sha256 10 match
verdict match
",
    },
    Command {
        arguments: &[
            "verify",
            "--require=sha256:10",
            "--known",
            "digests",
            "--known=digests",
            "log",
            "list",
            "row",
        ],
        status: 1,
        output: b"\
events 1 locality 0
entries 3
compared 1
boot_aggregate good
sha256 10 match
known_from 0
unknown entry 2
verdict differ
",
    },
    Command {
        arguments: &["locate", "log", "list", "values"],
        status: 1,
        output: PLACES,
    },
    Command {
        arguments: &["locate", "--require=sha256:9-10", "log", "list", "values"],
        status: 1,
        output: b"\
sha256 10 after entry 2
sha256 0 nowhere
sha1 10 absent
sha256 9 missing
not located
",
    },
    MEASURE,
    Command {
        arguments: &[
            "measure",
            "--print=registers",
            "header",
            "--files-from",
            "shell",
        ],
        status: 0,
        output: SHELL_LINE,
    },
    Command {
        arguments: &["registers", "--hcrtm", "started"],
        status: 0,
        output: HCRTM_LINE,
    },
    Command {
        arguments: &["list", "line"],
        status: 0,
        output: MEASUREMENT,
    },
    Command {
        arguments: &["log", "log"],
        status: 0,
        output: LOG,
    },
];

/// Commands that are refused, or fail.
pub static FAULTS: [Command; 6] = [
    Command {
        arguments: &["registers", "entry"],
        status: 2,
        output: b"refused: log fault 2\n",
    },
    Command {
        arguments: &["show", "a b"],
        status: 3,
        output: b"failed: read a b\n",
    },
    Command {
        arguments: &[
            "verify",
            "--require=sha256:10",
            "--known",
            "names",
            "log",
            "list",
            "row",
        ],
        status: 2,
        output: b"refused: known fault 2 at line 1\n",
    },
    Command {
        arguments: &["measure", "--limit=1", "header", "/bin/sh"],
        status: 2,
        output: b"refused: job 0 book fault 7\n",
    },
    Command {
        arguments: &["list", "entry"],
        status: 2,
        output: b"refused: text list fault 1 at line 1\n",
    },
    Command {
        arguments: &["log", "entry"],
        status: 2,
        output: b"refused: log form fault 13\n",
    },
];
