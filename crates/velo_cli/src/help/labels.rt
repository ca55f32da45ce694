//! The text of help of the commands that go by labels.

/// After the help of `audit`.
pub const OF_AUDIT: &str = "\
Example, a lost update:
  printf 'vlog 1 2 1 0\\n0 fork 1\\n0 begin 7\\n0 rd 0 0\\n1 wr 0 5\\n0 wr 0 1\\n' | velodrome audit -
It reports that label 7 is not atomic, with a witness and status 3.

It reads and judges the whole log first, as 'velodrome check' does, and leaves out what the options
name. Then it goes round by round. A round checks what is left. The labels of the blocks to blame at
its first alarm are not atomic. If no block is to blame, it is the label of the outermost open block of
the closing event's thread. The next rounds leave out the begins and ends of these labels too. The last
round has no alarm. All positions and lines are those of the log as it was read.

It prints 'left out label L', 'left out lock N' or 'left out all locks', 'left out variable N' for what
the options leave out; 'not atomic L' for each label found, and after the labels of a round its witness,
unless --no-witness is given; then 'atomic N labels' and 'rounds R'. With --names each number has its
name after it. With --sites a witness has the place in the source of each event that it mentions.

--format json prints the same for other programs, as one JSON object, and with each label how many blocks
it has, how many of these are to blame somewhere in the log, not only at an alarm, and how many of these
have no other one inside them. docs/FORMATS.md describes it. A function that calls one that is not atomic
is not atomic either, so begin with the innermost ones.

--not-atomic reads the known labels, one a line: a number, a name, or a line that an audit printed. So
the output of one audit can be the list of the next. If number and name of such a line no longer belong
together, it means the labels of the name. Other lines of an audit, empty lines, and comments that
begin with '#' are ignored. A name that no label has is allowed.

--ignore reads such a list, too, and leaves out locks and variables besides: 'lock N' and 'variable N',
each a number or a name as of --ignore-lock, 'all locks', and what an audit printed that it left out.

--ignore-label, --ignore-lock and --ignore-variable take a number, or a name in which '*' stands for any
characters, and may be repeated. The events inside a block stay where its label is left out.
--ignore-locks leaves out all locks: then only the accesses to variables, forks and joins order threads.
Only one of LOG and the FILEs can be -.

List faults, line 0 for the whole text:
   1  bad line
   3  too many
   4  not UTF-8

Ignored faults, where a word of these options is no name, and no number up to 65535 or of a label:
   1  no such lock
   2  no such variable
   3  no such label

Statuses, each with the lines on standard error:
  0  no label was found, or help
  2  usage; 'error: standard input can be read once'; 'error: --format takes text or json';
     'error: --ignore does not go with --not-atomic'; the text is no log: 'log fault K',
     'log fault K line N'; an event cannot happen: 'refused K at P', 'wrong value at P'; the text of
     --names is no file of names: 'names fault K line N'; the text of --sites is no file of sites, or of
     another log: 'sites fault K line N'; the text of --not-atomic or --ignore is no list:
     'list fault K line N'; a word of --ignore-label, --ignore-lock or --ignore-variable means nothing:
     'ignored fault K'
  3  a label was found whose blocks are not atomic
  4  a limit was met: 'refused 17 at P', 'refused 18 at P'
  5  memory or a device failed: 'out of memory', 'read failed', 'write failed', 'cannot open'

Sites and their faults: see 'velodrome explain --help'. Log, names, faults and refusals: see
'velodrome check --help'.";

/// After the help of `predict`.
pub const OF_PREDICT: &str = "\
Example, two threads that take one lock twice in a block, one thread after the other:
  printf 'vlog 2 2 1 1\\n0 fork 1\\n0 begin 7\\n0 acq 0\\n0 rd 0 0\\n0 rel 0\\n0 acq 0\\n0 wr 0 5\\n0 rel 0\\n0 end\\n' > log
  printf '1 begin 7\\n1 acq 0\\n1 rd 0 5\\n1 rel 0\\n1 acq 0\\n1 wr 0 6\\n1 rel 0\\n1 end\\n' >> log
  velodrome predict log --log witness.log
'velodrome check' has no alarm for this log. This command reports that label 7 is not atomic in another
run, with status 3. 'velodrome explain witness.log' shows how.

It reads and judges the whole log first, and finds the labels that are not atomic in this run, as
'velodrome audit' does. Then it looks for more that are not atomic in other runs of the same program: it
delays one thread within a block, or two, and lets the others go on. It also stops one where it has a
lock and acquires another, in search of deadlocks. A witness is such an order that the
program is known to have: each thread does what it did in the log while it reads what it read there;
after a read of another value it is only known to release the locks that it holds. The labels that a
witness blames are left out in the next round. The last round finds nothing.

It prints what 'velodrome audit' prints, up to the last witness. Then come for each prediction
'not atomic? L' for each block to blame, 'witness N events', a line for each read that had another value
in the log, and the cycle. Lines are those of the witness. 'deadlock? N threads wait in a circle' is
followed by such lines, too, and by what each thread waits to do. The last line is
'nothing found in N tries', or 'nothing else found in N tries': it never says that there is nothing.
--format json prints the same for other programs, as one JSON object. docs/FORMATS.md describes it.

Predictions are right for a program whose threads do what follows from what they read, whose critical
sections end, and of which the log has every read. So do not thin the log. Without --values two reads
have the same value where they read from the same write, and values in the witness are lines of the log.
Give --values if the values in the log are those of the program.

--names, --sites, --not-atomic, --ignore and the options that begin with --ignore- are those of
'velodrome audit'. Only one of LOG and the FILEs can be -. The same seed tries the same delays.

OUT must be no file that the command reads, by whatever path or on standard input; otherwise it stops
before it writes. If nothing is predicted, OUT is not opened.

Statuses, each with the lines on standard error:
  0  nothing was found, or help
  2  usage; 'error: standard input can be read once'; 'error: LOG and OUT are one file', the same of
     --names, --sites, --not-atomic and --ignore; 'error: --format takes text or json'; 'error: --ignore
     does not go with --not-atomic'; the text is no log: 'log fault K', 'log fault K line N'; an event
     cannot happen: 'refused K at P', 'wrong value at P'; the text of --names is no file of names:
     'names fault K line N'; the text of --sites is no file of sites, or of another log:
     'sites fault K line N'; the text of --not-atomic or --ignore is no list: 'list fault K line N'; a
     word of --ignore-label, --ignore-lock or --ignore-variable means nothing: 'ignored fault K'
  3  a label was found whose blocks are not atomic, in this run or in another, or a deadlock in another
  4  a limit was met: 'refused 17 at P', 'refused 18 at P'
  5  memory or a device failed: 'out of memory', 'read failed', 'write failed', 'cannot open'

Lists, ignored words: see 'velodrome audit --help'. Sites: see 'velodrome explain --help'. Log, names,
faults and refusals: see 'velodrome check --help'.";
