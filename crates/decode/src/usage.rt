// What --help prints.
pub const USAGE: &str = "Usage: decode < FILE

Reads SCCP messages of protocol classes 2 and 3, one to a line, as octets in
hex: two digits to an octet, in either case, with blanks or colons between
octets. A line with a single - is the empty message. A # starts a comment,
which ends with the line. Blank lines are skipped.

Each message is printed as one line, with its numbers in decimal:

  CR source= class= subsystem= credit=      connection request
  CC destination= source= class= credit=    connection confirm
  CREF destination= cause=                  connection refused
  RLSD destination= source= cause=          released
  RLC destination= source=                  release complete
  DT1 destination= more= data=              data form 1
  DT2 destination= ps= pr= more= data=      data form 2
  AK destination= pr= credit=               data acknowledgement
  RSR destination= source= cause=           reset request
  RSC destination= source=                  reset confirm
  ERR destination= cause=                   error

  class     2 or 3
  credit    the window size, or 0 for class 2, which has none
  ps, pr    the sequence numbers P(S) and P(R)
  more      1 where more segments follow, else 0
  data      in capital hex digits

Octets that are no message, and lines that are no octets, are printed as

  refused number= layer= place=     the refusal, its layer, and the octet
  error line N: REASON              N counts all lines, from 1

and the next line is read.

Options:
  -h, --help    print this text

The exit status is 1 after an error line, an unknown argument, or a failure to
read or write, and else 0.
";
