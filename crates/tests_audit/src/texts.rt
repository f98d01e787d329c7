// A program, and records of its nodes.

/// One call of one server.
pub const PROGRAM: &str = "CIRCUS 1;
Count: PROGRAM 1 VERSION 1 =
BEGIN
  Add: PROCEDURE [n: CARDINAL] RETURNS [sum: CARDINAL] = 1;
END.
MODULE Counter IMPLEMENTS Count;
BEGIN
  VAR total: CARDINAL;
  PROCEDURE Add BEGIN
    total := total + n;
    RETURN [total];
  END;
END.
ROOT Main IMPORTS Counter;
BEGIN
  VAR got: CARDINAL;
  MAIN BEGIN
    CALL Counter.Add [5] INTO [got];
    RETURN [];
  END;
END.
RINGMASTER ring PORT 9000;
TROUPE Counter CALLS FIRST REPLIES FIRST MEMBERS s1 PORT 9001;
TROUPE Main CALLS FIRST REPLIES FIRST MEMBERS m1 PORT 9002;
";

/// A server that calls another one, and no root.
pub const ROOTLESS: &str = "CIRCUS 1;
Count: PROGRAM 1 VERSION 1 =
BEGIN
  Add: PROCEDURE [n: CARDINAL] RETURNS [sum: CARDINAL] = 1;
END.
MODULE Counter IMPLEMENTS Count;
BEGIN
  PROCEDURE Add BEGIN
    RETURN [n];
  END;
END.
MODULE Relay IMPLEMENTS Count IMPORTS Counter;
BEGIN
  VAR got: CARDINAL;
  PROCEDURE Add BEGIN
    CALL Counter.Add [n] INTO [got];
    RETURN [got];
  END;
END.
RINGMASTER ring PORT 9000;
TROUPE Counter CALLS FIRST REPLIES FIRST MEMBERS s1 PORT 9001;
TROUPE Relay CALLS FIRST REPLIES FIRST MEMBERS t1 PORT 9002;
";

/// A record of its server.
pub const RELAY: &str = "circus node 1 t1
event 0 boot
member t1 Relay live from 0 at 0 count 0
now idle state [0]
";

/// A run of it has ended, which nobody began.
pub const RELAY_ENDED: &str = "circus node 1 t1
event 0 boot
member t1 Relay live from 0 at 0 count 1
";

/// And one was replied to.
pub const RELAY_TOLD: &str = "circus node 1 t1
event 0 boot
differ run 0 ask 0 s1 clock 0,0 returned [5] s1 clock 0,0 returned [6]
member t1 Relay live from 0 at 0 count 0
";

/// A client that waits.
pub const CLIENT: &str = "circus node 1 m1
event 0 boot
give s1 0000
member m1 Main live from 0 at 0 count 0
run 0 step 0 path Main procedure 0 clock 0,0 arguments []
ask 0 step 0 to Counter index 0 procedure 1 arguments [5] state [0]
now waiting ask 0 state [0]
";

/// A client whose run has ended.
pub const ENDED: &str = "circus node 1 m1
event 0 boot
give s1 0000
event 1 datagram s1 00
differ run 0 ask 0 s1 clock 1,0 returned [5] s1 clock 1,0 raised 60001 []
foreign 9999 0102
member m1 Main live from 0 at 0 count 1
run 0 step 0 path Main procedure 0 clock 0,0 arguments []
ask 0 step 0 to Counter index 0 procedure 1 arguments [5] state [0]
reply 0 step 1 clock 1,0 returned [5]
end 0 step 1 clock 1,0 returned [] state [5]
now idle state [5]
";

/// A client whose run is the last one that is counted.
pub const LAST: &str = "circus node 1 m1
event 0 boot
differ run 4294967295 ask 0 s1 clock 1,0 returned [5] s1 clock 1,0 raised 60001 []
member m1 Main live from 4294967295 at 0 count 4294967295
run 4294967295 step 0 path Main procedure 0 clock 0,0 arguments []
ask 0 step 0 to Counter index 0 procedure 1 arguments [5] state [0]
reply 0 step 0 clock 1,0 returned [5]
end 4294967295 step 0 clock 1,0 returned [] state [5]
now idle state [5]
";

/// A server to which two datagrams came.
pub const SERVER: &str = "circus node 1 s1
event 0 boot
event 1 datagram m1 00
foreign 9999 0102
member s1 Counter live from 0 at 0 count 0
now idle state [0]
";

/// The Ringmaster.
pub const RING: &str = "circus node 1 ring
event 0 boot
event 1 tick
event 2 down m1
ringmaster ring live
view Counter 1 s1=0
view Main 2 m1=joining s1=7
";

/// A member before any event.
pub const APART: &str = "circus node 1 m1
member m1 Main live outside
";
