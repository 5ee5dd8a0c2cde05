//! What is said about `run` and `maps`, of the traces that they read, and of what they write.

/// What `run` does.
pub const RUN: &str = "\
run replays a trace. It acts on each line as it is read, and writes a line for
each event: the reply of a call, or what became of a step.

Usage: radixvm run [--summary | [--echo] [--state] [--log]] [--long]
                   [--brief] [FILE]

Options:
  --log      adds the log: when each call had its reply (help log)
  --echo     writes LINE = OUTCOME for each event, and copies vm and file
             lines. With --log each entry comes below the line that made it
  --state    writes what --echo does, and below each line what it changes in
             the state: - LINE for a line of state that goes, + LINE for one
             that comes. Applied to epoch 0, these lead to what state --at N
             writes. The trace is held in memory; after an error nothing is
             written. Not with --long
  --summary  writes numbers of the run to standard error (help cores)
  --long     lets the trace ask for up to 2^40 calls. Not with --log
  --brief    says only where an error is, and what it is

Output: help outcomes explains each line, and what to do when a call waits.
It is flushed whenever no complete input line is waiting.

Examples:
  radixvm run --echo examples/first.trace
  printf '%s\\n' 'vm 1 4' 'c0! mmap 0x10000 4096 rw- pfa' \\
    'c0! store 0x10004 41' 'c0! load 0x10004' | radixvm run
The second writes 0x10000, done and 41, each on a line of its own.

Status: 0 if the text was replayed to its end; 2 for a bad text or bad
arguments; 3 if reading, writing or memory failed.
";

/// What a trace may hold.
pub const TRACE: &str = "\
A trace is text. Its first line says how large the space is. Then comes a line
for each file, then a line for each event. The run ends with the text: when a
pipe is closed, or at a terminal with Ctrl-D.

  vm CORES FRAMES [CALLS]  first, once: 1 to 64 cores, 0 to 65536 frames of
                           4096 bytes, and how many calls may begin: 4096 if
                           left out, at most 1048576, or 2^40 with --long
  file N MODE LEN SEED     a file that the trace makes up: N is 0, 1, 2 and so
                           on up to 15, and MODE is r, w or rw. LEN is its
                           length in bytes, at most 1048576. Its byte I is
                           (SEED + I) modulo 256

An event is one of these, on core C: c0, c1 and so on up to one below CORES.

  cC! REQ                  core C makes a call, which goes on until it has its
                           reply or has to wait
  cC call REQ              core C begins a call, and makes no step of it
  cC go                    one step of core C's call
  cC finish                the steps of core C's call, until it has its reply
                           or has to wait
  cC take                  core C handles its oldest message: it makes a take
                           (help cores)
  cC flush                 core C flushes one count, or ends its part of the
                           epoch
  cC review                core C reviews the first frame of its queue
  cC walk ADDR             core C's TLB gets ADDR's page from its tables
  cC evict ADDR            core C's TLB drops ADDR's page
  cC frame F               core C's call needs a frame, and takes frame F if it
                           is free; go and finish take the lowest free frame
  cC guess ADDR            core C's call looks for a place, and tries the gap
                           from ADDR's page on
  cC whole                 core C's call looks for a place, and locks all of
                           its window
  cC giveup                core C's call is cancelled, as if memory were short;
                           its finish then gives nomemory. It does nothing
                           (idle) if the call's change or reply is already
                           fixed, or while a store still waits for acks
  fold ADDR                joins slots at ADDR's page; no content changes

frame, guess and whole fit one moment of a call. Begin the call with cC call,
and try them after each cC go, until one of them isn't idle.

REQ is one of these.

  mmap ADDR LEN PROT FLAGS [FILE OFF]
  munmap ADDR LEN          also of pages that aren't mapped
  mprotect ADDR LEN PROT
  load ADDR                reads a byte
  store ADDR BYTE          writes it
  fetch ADDR               reads it to execute it

PROT is rwx, with - for each right that isn't given: rw-, r--, ---.
FLAGS is - or these letters, each at most once, in any order:
  p  private and s shared: mmap needs exactly one of the two
  f  fixed: the mapping is at ADDR, and replaces others there
  a  anonymous: no file, bytes of zero; p and s mean the same then
FILE is the number of a file, OFF the place in it at which the mapping begins.
With a in FLAGS both are ignored, and may be left out.

Without f, ADDR is a hint: the mapping goes there if all its pages are valid
and free. Otherwise it goes to the lowest gap in the core's window, which is
the 2^39 bytes from 0x8000000000 * (C + 1) on: from 0x8000000000 for core 0.

Addresses from 0x1000 up to 2^47 are valid. ADDR, LEN and OFF are in bytes. A
page has 4096 of them, and a range takes each page that has some byte of it.
BYTE and SEED are at most 255. A number is decimal, or hexadecimal after 0x,
and below 2^64: there is no 4K and no 1,000. C is decimal, without leading
zeros.

A line has at most 256 bytes, which are spaces and visible ASCII (0x20 to
0x7e): no tab, no carriage return, no letter beyond. Spaces divide words. An
empty line, or one that begins with #, says nothing. A # after words begins no
comment.
";

/// What comes out for each line of an event.
pub const OUTCOMES: &str = "\
Each event gives one line of output. Output is flushed whenever no complete
input line is waiting.

Replies:
  0x10000       the mmap is done: the mapping's address
  done          the munmap, the mprotect or the store is done
  41            the byte that was loaded or fetched, in decimal
  einval        an argument is wrong: a length of 0 in mmap or munmap; a page
                outside the space in munmap; p and s both, or neither; an ADDR
                of munmap, mprotect or a fixed mmap, or an OFF, that isn't a
                multiple of 4096
  enomem        a page of a fixed mmap or an mprotect is outside the space; a
                page of an mprotect isn't mapped; or an mmap without f finds
                no place
  ebadf         there is no such file
  eoverflow     the mapping would end past 2^47 in its file
  eacces        the file isn't open for reading; or it isn't open for writing,
                and what is mapped is shared and writable
  segv maperr   no page is mapped there (SIGSEGV)
  segv accerr   the page's protection forbids it (SIGSEGV): a store needs w, a
                fetch x, a load any of r, w and x
  bus           the page lies past the end of its file (SIGBUS)
  noframe       no frame is free
  nomemory      the call was cancelled: by giveup, or because live was refused
                memory

Other outcomes:
  step          a step was made, and answered no call
  wait slot C   core C holds a page that the call needs
  wait acks C.. the call waits until these cores have handled its messages
  idle          the event had no effect: the core isn't there; it has no call
                to go on with, or has one already; or there is nothing to
                take, flush, review, walk, evict, fold, guess or give up, or
                that frame isn't free
  full          the event had no effect: as many calls as the vm line allows
                have begun
  stuck         2^40 steps of one finish gave the call no reply

If the reply isn't one of the first three, the call changed no mapping and no
byte. But a store that ends in segv accerr or nomemory may already have given
its private page a copy, and that stays.

What to do if core 0 reads one of these:
  wait acks 1   core 1 may still have a translation. Two takes drop it, first
                from its tables, then from its TLB. Then the call goes on:
                  c1 take
                  c1 take
                  c0 finish
                If core 1 has older messages, let it take until it reads idle.
  wait slot 1   let core 1's call end, which releases its pages:
                  c1 finish
                  c0 finish
                If core 1 waits too, do first what its own wait asks for.
  noframe       write more FRAMES on the vm line. Or unmap an anonymous page
                that has a frame: the frame is free again after two epochs and
                a review. With one core, which has no other count to flush:
                  c0 flush
                  c0 flush
                  c0 flush
                  c0 review
                With more cores, each flushes until it reads idle, each flushes
                once more, and then each reviews until it reads idle. Then make
                the store or load again.
  idle          at cC! or cC call: end the core's last call by finish first
  full          write more CALLS on the vm line
";

/// What `run --log` writes after the outcomes.
pub const LOG: &str = "\
run --log writes the log after the outcomes, a line for each entry, in order:

  log STEP call CALL REPLY  from this step on call CALL has this reply
  log STEP detach ADDR      from this step on the private page at ADDR has a
                            copy of its own, and shows its file no longer

STEP is the number of a step, from 1 on. cC! and cC finish may make several
steps. Every other event makes one, even if it is idle. CALL is the number of a
call, in the order in which calls began, from 1 on. REPLY is as in help
outcomes.

The log is the order in which calls took effect (a linearization): a plain page
map that makes them in this order, one after another, can give these replies.
After an error there is no log.

run --log --echo writes each entry below the line of the trace that made it,
with the call that it belongs to: the line that asked for the call, counted
from 1, its core and the request, as certify reads requests (help notes).

  log 9 call 1 0x10000 (line 2: c0 mmap 0x10000 0x1000 rw- pfa 0 0x0)

After an error the entries of the lines before it are there.

Example:
  radixvm run --log examples/log.trace
";

/// What `maps` writes.
pub const MAPS: &str = "\
maps replays a trace, and writes the mappings at its end in order of addresses.

Usage: radixvm maps [--names] [--long] [--brief] [FILE]

Options:
  --names    adds to each line the name of its file. It is that of a comment
             # file N NAME right before the file's line in the trace, as import
             writes it. The trace is held in memory
  --long     lets the trace ask for up to 2^40 calls
  --brief    says only where an error is, and what it is

Output:
  START-END PROT BACK

START is the first address, and END the first one after the mapping. PROT is
rwx, with - for each right that isn't there. BACK is one of these:

  anon              no file
  shared FILE OFF   this file, from the offset OFF on; stores change it
  private FILE OFF  this file, until a page's first store gives the page a copy

Neighbouring pages with the same protection are one line if they have no file,
or if the second continues in the file where the first ends. After an error no
mappings are written.

Example:
  radixvm maps examples/maps.trace

Status: 0; 2 for a bad text or bad arguments; 3 if reading, writing or memory
failed.
";

/// What `state` writes.
pub const STATE: &str = "\
state replays a trace, and writes the state of the machine at its end: one line
for each thing, and none for what is empty.

Usage: radixvm state [--diff A B | --until COND |
                      [--at N] [--json | --who ADDR]] [--brief] [FILE]

Options:
  --at N        the state after line N. Lines count from 1; vm, file and
                comment lines change nothing. Lines after N aren't looked at
  --json        writes the same as JSON, an object a line
  --diff A B    what differs between the states after two lines: - LINE for a
                line of the state that goes, + LINE for one that comes
  --who ADDR    the lines of the state that have to do with a page: they name
                it, also as one of a range, or its frame. Before each is the
                number of the line of the trace at which it came
  --until COND  the first line after which the state is like this: its number,
                and the state there. COND is one of
                  stale   a translation is stale (below)
                  waits   a call awaits other cores
                  unused  a frame in use has true count 0
  --brief       says only where an error is, and what it is

Output:
  epoch E
        the epoch of Refcache (help cores)
  core C CALL DOES [ADDR | START-END]
        the core has this call (mmap, munmap, mprotect, load, store or fetch;
        or call, if it has its reply). DOES is its next step, with these pages:
          checks its arguments
          locks, splits, unlocks   locks slots, splits one, or releases them
          looks for a gap, gives back
                                   searches free pages, or unlocks pages that
                                   turned out not to be free
          decides on               finds the reply
          asks cores to drop       sends shootdown messages
          awaits cores for         waits for their acks
          translates, looks at     tries the access; after a page fault, finds
                                   what the page has
          wants a frame for, fills, installs
                                   gets a frame, its bytes, and its entry
          answers                  returns the reply
  core C holds ADDR | START-END
  core C took frame F
        the call owns these pages, and has this frame that no page has yet
  core C tlb ADDR frame F PROT
        the core's TLB translates the page at this address, the oldest filled
        first. Each translation permits loads, so PROT begins with r
  core C table ADDR frame F PROT
        the core's tables have the page, the lowest first
  core C tlb ADDR frame F PROT stale: posted
  core C table ADDR frame F PROT stale: posted
  core C tlb ADDR frame F PROT stale: cleared
        another core asked this one to drop the page, and this one hasn't
        acknowledged: posted is before the first take, cleared between the
        takes, when the tables have lost the page and the TLB still has it
  core C inbox from D START-END first take due
  core C inbox from D START-END second take due
        core D waits until this one drops these pages, the oldest message first

  START-END PROT BACK
        a mapping (help maps), after the lines of all cores
  page ADDR [frame F] [cores C D ..]
        the page has a frame, or these cores are recorded on it: those that a
        change of the page sends messages to

  core C count frame F +1
        the core has yet to add this to the frame's global count
  core C queue frame F epoch E
        the core is to review the frame, which was queued in epoch E; the next
        one first
  core C flushed
        the core has added all its counts in this epoch
  frame F count N global G [dirty]
        the frame is in use: N is its true count, the global one and what the
        cores have yet to add. dirty: since the frame was queued, its global
        count became nonzero and went back to 0

Cores, and the things of each, are in this order; pages and frames the lowest
first. The trace is held in memory.

With --json each line is an object with these members, in the same order:

  epoch
  core, call [, page | first, end]
  core, holds [, page | first, end]
  core, took
  core, tlb or table, frame, rights [, stale]
  core, inbox, from, first, end
  mapping
  page [, frame] [, cores]
  core, count, frame
  core, queue, epoch
  core, flushed
  frame, count, global [, dirty]

Cores, frames, counts and epochs are numbers; took and queue are a frame's
number, and cores is a list of numbers; holds, flushed and dirty are true. All
else are strings: tlb, table, page, first and end are addresses; call, rights
and stale have the words above; inbox says which take is due, and mapping is
the line of a mapping.

Examples:
  radixvm state --at 10 examples/shootdown.trace
  radixvm state --json examples/reuse.trace
  radixvm state --diff 9 10 examples/shootdown.trace
  radixvm state --at 10 --who 0x10000 examples/shootdown.trace
  radixvm state --until stale examples/shootdown.trace

Status: 0; 1 if no state is as --until asks; 2 for a bad text or bad
arguments, or a trace without such a line; 3 if reading, writing or memory
failed. After an error no state is written.
";

/// What ends a replay early.
pub const FAULTS: &str = "\
An error ends a command. It is reported on standard error, after the output of
all lines before it:

  radixvm: NAME:LINE:COLUMN: WHAT

NAME is the file, or standard input. Lines and columns count from 1, lines with
empty ones and comments, columns in bytes. Below are the line, a caret at the
column, and what was expected there; --brief leaves these out, and the column.

WHAT is one of these:
  bad line           it is no line of help trace, or comes in a wrong place
  too long           it has more than 256 bytes, or in audit more than 512
  no vm line first   the first line with words isn't a vm line, or there is
                     none
  setup S1           CORES isn't 1 to 64
  setup S2           FRAMES is above 65536
  setup S3           there are more than 16 files
  setup S4           a file has more than 1048576 bytes
  setup S5           CALLS is above 1048576, or with --long above 2^40
  setup S6           no memory for a space of that size
  read failed        standard input or FILE can't be read, or FILE not opened
  write failed       standard output or a file can't be written
  out of memory      a step found no memory; the steps before it remain

After the output a note warns of a line that is accepted but looks like a
mistake: a core that the vm line doesn't have, or an mmap whose FLAGS have
neither p nor s. --brief leaves it out.

Common causes of a bad line:
  PROT of two letters             rw for rw-
  a number that isn't one         4K, 1_000 or 1,000
  a byte that isn't allowed       a tab, a letter that isn't ASCII, or a
                                  carriage return (tr -d '\\r' drops it)
  words after the last one        such as a comment
  FILE and OFF left out           without a in FLAGS
  a file line after an event      or whose N isn't the next number
  a core's name                   c0: or c00 or c64
  a second vm line
A core that the vm line doesn't have is no bad line: its events are idle.

Status, of all commands:
  0    yes: the text was read to its end, whatever its calls replied, and what
       was asked for holds
  1    no: audit found a wrong reply or no order, certify refused notes, litmus
       has a clause that fails
  2    a bad text or bad arguments
  3    the system failed: reading, writing, memory (also setup S6) or a thread
  4    undecided: audit found no order, or litmus has a clause that is open
  5    no, but yes by a wider rule: audit found no order of calls that overlap,
       and they are legal by --kernel
  141  the reader of standard output has gone, as in radixvm run | head.
       Nothing is reported then
";

/// What a newcomer to the model needs of cores.
pub const CORES: &str = "\
Each core has its own page tables, four levels as on x86-64, and a TLB of 64
pages. A full TLB drops the page that was filled first. A load, store or fetch
that the TLB or the tables permit is done at once. Otherwise the access is a
page fault: the call locks the page, gives it a frame if it has none, records
that this core uses the page, and enters the page into the core's tables. walk
and evict move TLB entries, as a processor may do by itself.

Locks. Pages lie in slots (like VMAs): neighbouring pages that are locked
together. A call that changes pages locks its slots from left to right, and
releases them at its end. If another core's call holds one, it reads wait slot
C. A slot that crosses an end of a call's range is split into 512. fold joins
these again if no call holds one, none has a frame or a core that uses it, and
all are unmapped or continue one another.

TLB shootdown. munmap, mprotect and an mmap over pages in use clear them in the
core's own tables and TLB. They send a message, as a kernel sends an IPI, to
the other cores that are recorded on these pages, and to no others. The call
reads wait acks C.. until each has handled the message by two takes: the first
take clears the core's tables, the second its TLB, and acknowledges. Until then
that core may still read and write the old page: its translation is stale. A
core whose own call waits can take, walk, flush and review.

Private pages show their file, until a store gives the page a copy (copy on
write, COW). Before it does, the other cores recorded on the page have to take
twice, too.

Frames are counted by Refcache, as in the RadixVM paper: one for each page that
has the frame, and one more if it caches a page of a file. A core collects its
changes of counts. flush hands on its change of one frame's count, the frame
with the lowest number. If it has none left, flush ends the core's part of the
epoch. An epoch ends when each core has ended its part. A frame whose count
fell to 0 goes into the queue of the core that flushed it. review frees it two
epochs later if its count stayed 0, and reads idle before that.

Places. An mmap without f that looks for a place takes the lowest gap of its
window at the next go or finish; guess and whole choose for it. If another core
maps something there meanwhile, the call starts again, once, and locks all of
its window.

Numbers. After a run without an error, run --summary writes these to standard
error, each with its number on a line of its own:
  calls REPLY    answered calls: mapped (an address), done, byte, refused
                 (einval to eacces), segv, bus, noframe and nomemory
  faults         accesses that neither the core's TLB nor its tables permitted
  fills          pages that got a frame: of zeros, of their file, or a copy
  shootdowns     messages to other cores; told N of M: how many cores got
                 them, of all other cores that there were
  frames         the most that were in use at once
  epochs         those that have ended
With it the trace's steps are made one by one.
";

/// What `html` writes.
pub const PAGE: &str = "\
html replays a trace, and writes one page of HTML that steps through it. The
page needs no network and no other file. page is its older name.

Usage: radixvm html [--brief] [FILE]

Options:
  --brief    says only where an error is, and what it is

On the left are the trace's lines, each with its reply once it is made, and
below it the lines of the log that it adds (help log). On the right is the
state after the line, as state writes it (help state): the cores side by side,
each with its call, what that holds, its TLB, tables, inbox and counts; and
the mappings, each in a colour, with their pages, and the frames in use with
their counts. What the line changed is lit, what it took away is struck out,
and a stale translation is red. An arrow leads from a core that asked another
to drop pages to the message in the other's inbox; it is dashed once the first
take is made.

  right arrow, down arrow, j    the next line
  left arrow, up arrow, k       the line before
  Home, End                     before the first line; after the last
  s                             each step of a call by itself, or not
  trace.html#12                 leads to line 12, and #12.3 to its third step

A click on a line leads there as well, and so does Enter after Tab. The colours
are light or dark as the browser has them.

The page holds the first state, and of each step what it changed. A trace with
an error has no page. It is held in memory, and may ask for as many calls as
with run --log.

Example:
  radixvm html examples/lessons/stale.trace > stale.html

Status: 0; 2 for a bad text or bad arguments; 3 if reading, writing or memory
failed.
";

/// The grammar of each text.
pub const FORMATS: &str = "\
The grammar of each text that radixvm reads and writes. Words are divided by
spaces; [ ] may be left out, | divides choices, .. means one more or none. A
line is empty, begins with #, or is one of these.

  trace    = vm file.. event..
  replies  = vm file.. said..             audit
  history  = vm file.. timed..            audit --overlapping
  script   = vm file.. task..             live
  notes    = vm file.. note..             certify
  test     = vm file.. event.. [together call.. final.. clause..]     litmus
  counts   = counted..                    litmus --observed

  vm       = \"vm\" CORES FRAMES [CALLS]
  file     = \"file\" N (\"r\" | \"w\" | \"rw\") LEN SEED
  event    = CORE\"!\" REQ | CORE \"call\" REQ | CORE step | \"fold\" ADDR
  step     = \"go\" | \"finish\" | \"take\" | \"flush\" | \"review\" | \"whole\" | \"giveup\"
           | \"walk\" ADDR | \"evict\" ADDR | \"guess\" ADDR | \"frame\" F
  said     = event \"=\" OUTCOME | CORE \"copy\" ADDR
  timed    = BEGIN END call \"=\" REPLY
  task     = call | CORE \"flush\" | CORE \"review\"
  note     = TICKET event \"=\" OUTCOME
  call     = CORE\"!\" REQ
  final    = \"final\" (ADDR | \"maps\")
  clause   = (\"exists\" | \"never\" | \"forall\") COND
  COND     = AND | AND \"or\" COND
  AND      = ATOM | ATOM \"and\" AND
  ATOM     = CORE\".\"N (\"=\" | \"!=\") REPLY | ADDR \"=\" BYTE
  counted  = TIMES\":\" CORE REPLY [\",\" REPLY].. [\";\" ..]

  REQ      = \"mmap\" ADDR LEN PROT FLAGS [FILE OFF] | \"munmap\" ADDR LEN
           | \"mprotect\" ADDR LEN PROT | \"load\" ADDR | \"store\" ADDR BYTE
           | \"fetch\" ADDR
  REPLY    = ADDR | \"done\" | BYTE | \"einval\" | \"enomem\" | \"ebadf\"
           | \"eoverflow\" | \"eacces\" | \"segv maperr\" | \"segv accerr\" | \"bus\"
           | \"noframe\" | \"nomemory\"
  OUTCOME  = REPLY | \"step\" | \"wait slot\" C | \"wait acks\" C.. | \"idle\"
           | \"full\" | \"stuck\"
  CORE     = \"c0\" | \"c1\" .. \"c63\"
  PROT     = \"rwx\" with \"-\" for each right that isn't given
  FLAGS    = \"-\" or some of \"p\" \"s\" \"f\" \"a\"
  all else = a number below 2^64: decimal, or hexadecimal after 0x

Written are also

  log      = \"log\" STEP \"call\" CALL REPLY | \"log\" STEP \"detach\" ADDR
  mapping  = START\"-\"END PROT (\"anon\" | \"shared\" FILE OFF
           | \"private\" FILE OFF)
  verdict  = \"legal\" CALLS .. | \"illegal\" LINE \":\" .. | \"undecided\" LINE ..
           | \"no order\" LINE \":\" .. | \"certified\" CALLS | \"refused\" ..

help trace, outcomes, log, maps, state, notes, threads, audit and litmus say
what they mean. What is promised: a text that is accepted today is accepted,
with the same outcomes, by each later 0.x of the program, or CHANGES.md says
how it changes. New kinds of lines may come.
";
