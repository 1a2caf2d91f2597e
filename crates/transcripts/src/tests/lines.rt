//! Lines that are bad, and scripts without commands.

use super::{ALL_GOOD, Asked, Row, Told, ends};
use commands::fault::TextFault;
use std::test::Fail;

/// Each of these is bad wherever it stands.
const BAD: &str = " \n\
    c emit\n\
    A emit\n\
    a\n\
    a \n\
    a  emit\n\
    \x20a emit\n\
    a emit \n\
    a emit\r\n\
    a\temit\n\
    a emit 1\n\
    a send 1\n\
    a send 1 \n\
    a send 1 two words\n\
    a send 1 \u{7f}\n\
    a send 1 \u{e9}\n\
    # \u{e9}\n\
    a socket\n\
    a socket raw\n\
    a socket udp 1\n\
    a socket TCP\n\
    a bind 1 65536\n\
    a bind 1 -1\n\
    a bind 1 +80\n\
    a bind 1 0x50\n\
    a bind 1\n\
    a bind 18446744073709551616 80\n\
    a connect 1 80 4294967296\n\
    a connect 1 80\n\
    a listen 1 18446744073709551616\n\
    a fill 1 2000001\n\
    a recv 1 2000001\n\
    a count 1 2000001\n\
    a recv 1 \n\
    a tick 18446744073709551616\n\
    a tick\n\
    a deliver 0\n\
    a deliver 0 4294967296\n\
    a round\n\
    a round \n\
    a round x\n\
    a round 1 1\n\
    a round 18446744073709551616\n\
    round 1\n\
    pass\n\
    pass 4294967296\n\
    pass 1 1\n\
    noscale 1\n\
    noscale \n\
    no scale\n\
    limit 0\n\
    limit 1073741825\n\
    a shutdown\n\
    a shutdown 1 1\n\
    a nodelay 1\n\
    a nodelay on\n\
    a nodelay 1 On\n\
    a nodelay 1 1\n\
    a nodelay 1 on off\n\
    a ready\n\
    a ready 1 1\n\
    a info\n\
    a info 1 1\n\
    a info x\n\
    a close\n\
    a close 1 1\n\
    a abort\n\
    a abort 1 1\n\
    a sendto 1 5001\n\
    a sendto 1 65536 hello\n\
    a sendto 1 5001 two words\n\
    a fillto 1 5001 2000001\n\
    a fillto 1 5001 x\n\
    a recvfrom 1 2000001\n\
    a recvfrom 1 1 1\n\
    a countfrom 1\n\
    a peername 1";

/// Scripts without commands: `noscale` comes first, or is bad, and so does the limit, which may stand behind `noscale`.
pub(super) const ROWS: &[Row] = &[
    Row {
        asked: Asked::Sim,
        text: b"",
        ends: Ok(None),
        prints: b"",
        captures: b"",
    },
    Row {
        asked: Asked::Sim,
        text: b"#\r\tany ASCII\n\n",
        ends: Ok(None),
        prints: b"",
        captures: b"",
    },
    Row {
        asked: Asked::Sim,
        text: b"limit 1073741824\n",
        ends: Ok(None),
        prints: b"ok\n",
        captures: b"",
    },
    Row {
        asked: Asked::Sim,
        text: b"limit 001",
        ends: Ok(None),
        prints: b"ok\n",
        captures: b"",
    },
    Row {
        asked: Asked::Sim,
        text: b"# first\n\nlimit 1",
        ends: Ok(None),
        prints: b"ok\n",
        captures: b"",
    },
    Row {
        asked: Asked::Sim,
        text: b"limit 1\nlimit 1",
        ends: Err(TextFault::Line(2)),
        prints: b"",
        captures: b"",
    },
    Row {
        asked: Asked::Sim,
        text: b"a emit\nlimit 1",
        ends: Err(TextFault::Line(2)),
        prints: b"",
        captures: b"",
    },
    Row {
        asked: Asked::Sim,
        text: b"limit",
        ends: Err(TextFault::Line(1)),
        prints: b"",
        captures: b"",
    },
    Row {
        asked: Asked::Sim,
        text: b"# first\n\nnoscale\n# then\nlimit 16",
        ends: Ok(None),
        prints: b"ok\nok\n",
        captures: b"",
    },
    Row {
        asked: Asked::Sim,
        text: b"noscale",
        ends: Ok(None),
        prints: b"ok\n",
        captures: b"",
    },
    Row {
        asked: Asked::Sim,
        text: b"limit 16\nnoscale",
        ends: Err(TextFault::Line(2)),
        prints: b"",
        captures: b"",
    },
    Row {
        asked: Asked::Sim,
        text: b"noscale\nnoscale",
        ends: Err(TextFault::Line(2)),
        prints: b"",
        captures: b"",
    },
    Row {
        asked: Asked::Sim,
        text: b"a socket udp\nnoscale",
        ends: Err(TextFault::Line(2)),
        prints: b"",
        captures: b"",
    },
    Row {
        asked: Asked::Sim,
        text: b"noscale 1",
        ends: Err(TextFault::Line(1)),
        prints: b"",
        captures: b"",
    },
    Row {
        asked: Asked::Sim,
        text: b"noscale\nlimit 16\nlimit 16",
        ends: Err(TextFault::Line(3)),
        prints: b"",
        captures: b"",
    },
];

#[test]
fn bad_lines_end_before_anything_is_run(rt: HostRuntime) -> Result<(), Fail> {
    let told = Told {
        answers: (Err(TextFault::Line(4)), Ok(())),
        failures: (0, 0, 0),
        prints: b"",
        captures: b"",
    };
    for line in BAD.split('\n') {
        let script = format!(in rt.alloc(); "a socket tcp\n\n# comment\n{line}\nbad too\n")?;
        let asked = (Asked::Sim, script.as_bytes());
        ends(&rt, rt.alloc(), asked, ALL_GOOD, &told);
    }
    Ok(())
}
