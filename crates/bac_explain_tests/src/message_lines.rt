//! The lines of the pieces of network messages: their data is cut where fields begin.

use crate::named_lines::has_lines;

/// An I-Am-Router-To-Network of two networks.
const NETWORKS: &str = "01 80 01 00 02 00 03";

const NETWORKS_LINES: &str = "   0  01           version 1
   1  80           control: no reply expected, priority 0
   2  01           network message 1
   3  0002         network 2
   5  0003         network 3
";

/// A Reject-Message-To-Network.
const REJECT: &str = "01 80 03 01 00 05";

const REJECT_LINES: &str = "   0  01           version 1
   1  80           control: no reply expected, priority 0
   2  03           network message 3
   3  01           reason 1
   4  0005         network 5
";

/// An Initialize-Routing-Table with two ports.
const TABLE: &str = "01 80 06 02 00 05 1E 02 AA BB 00 06 00 00";

const TABLE_LINES: &str = "   0  01           version 1
   1  80           control: no reply expected, priority 0
   2  06           network message 6
   3  02           ports
   4  0005         network 5
   6  1E           id 30
   7  02AABB       info
  10  0006         network 6
  12  00           id 0
  13  00           info
";

/// An Establish-Connection-To-Network.
const ESTABLISH: &str = "01 80 08 00 05 1E";

const ESTABLISH_LINES: &str = "   0  01           version 1
   1  80           control: no reply expected, priority 0
   2  08           network message 8
   3  0005         network 5
   5  1E           time 30
";

/// A network message without a layout.
const OPAQUE: &str = "01 80 81 00 10 AA BB";

const OPAQUE_LINES: &str = "   0  01           version 1
   1  80           control: no reply expected, priority 0
   2  81           network message 129
   3  0010         vendor 16
   5  AABB         data
";

#[test]
fn data_is_cut_where_fields_begin(rt: HostRuntime) {
    let alloc = rt.alloc();
    has_lines(&rt, alloc, NETWORKS, NETWORKS_LINES);
    has_lines(&rt, alloc, REJECT, REJECT_LINES);
    has_lines(&rt, alloc, TABLE, TABLE_LINES);
    has_lines(&rt, alloc, ESTABLISH, ESTABLISH_LINES);
    has_lines(&rt, alloc, OPAQUE, OPAQUE_LINES);
}
