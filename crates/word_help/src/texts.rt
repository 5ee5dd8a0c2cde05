//! What is said about the other words, and of the texts that they read and write.

/// What `certify` reads and writes.
pub const NOTES: &str = "\
certify reads notes, and says whether they are a run of the machine: it
validates a recorded run.

Usage: radixvm certify [--brief] [FILE]

Options:
  --brief    says only where an error is, and what it is

Notes say which steps were made, in which order, and with which outcomes.
Several cores may have noted their steps at the same time. The text begins as a
trace does, with a vm line, here always with CALLS, and a line for each file.
Each note is

  TICKET EVENT = OUTCOME

TICKET is the step's number in the order of all steps, from 0 on. EVENT is an
event of help trace that makes one step: not cC!, and not cC finish. OUTCOME is
as in help outcomes, but not stuck. Notes may come in any order.

Output: certify gives the events to the machine in order of tickets, and writes
one of these:

  certified CALLS    they are a run of the machine with exactly these outcomes,
                     in which so many calls were answered. So a plain page map
                     can give these replies (help log)
  refused C1 TICKET  the tickets from 0 up to the number of notes must be there
                     once each; this is the lowest that isn't
  refused C2 TICKET: noted OUTCOME, expected OUTCOME
                     the first step with another outcome

Example, a call and its two steps:
  printf '%s\\n' 'vm 1 1 4' '0 c0 call load 0x0 = step' '1 c0 go = step' \\
    '2 c0 go = segv maperr' | radixvm certify
writes certified 1.

Status: 0 if they are certified, 1 if they are refused; 2 for a bad text or bad
arguments; 3 if reading, writing or memory failed. After an error (help errors)
nothing is written.
";

/// What `live` reads and writes.
pub const THREADS: &str = "\
live runs a script, each core's lines in their order on a thread of the core's
own, or one core after another if no thread can be made. All other commands use
one thread.

Usage: radixvm live [[--certify | --history] [--summary] | --one-machine]
                    [--brief] [FILE]

Options:
  --certify      writes only whether the notes are certified
  --history      writes when each call began and was answered, for audit
  --summary      writes numbers of the run to standard error
  --one-machine  runs the script on one machine that all threads share. Its
                 older name is --shared
  --brief        says only where an error is, and what it is

A script has the vm and file lines of help trace, and these lines:

  cC! REQ     core C makes a call
  cC flush    core C flushes one count
  cC review   core C reviews the first frame of its queue

The whole script is read before anything runs. Each core may begin CALLS
divided by CORES calls, rounded down.

Output: notes, as help notes says: a line for each step that a thread made, in
the order of all steps. When cores meet, the threads decide which step comes
first, so two runs of one script may write other notes.

  radixvm live FILE | radixvm certify

certifies that they are a run of the machine, or refuses them. live --certify
writes only that verdict, and also compares how each slot of the space changed:

  refused C5 PAGE   the slot of this page, a number, changed in another way

live --history writes the vm and file lines, and then of each call that was
answered

  BEGIN END cC! REQ = REPLY

BEGIN and END are the numbers of the notes that began and answered the call.
One core comes after another. audit --overlapping reads them.

With each of these --summary writes the numbers of all notes to standard error,
after a run without an error, each on a line of its own:

  requests NAME   calls that began: mmap, munmap, mprotect, load, store, fetch
  calls REPLY     answered calls, as run --summary counts them (help cores)
  segv REASON     calls that got segv maperr, and segv accerr
  takes           messages that cores handled
  tickets, notes  how many tickets were drawn, and notes made: as many

live --one-machine runs the script on one machine. A core makes its call whole
while no other core is in one; otherwise it pauses, and tries again. CALLS
limits the calls of all cores together. It writes these lines in place of
notes; audit reads the last ones (help audit):

  # cC! REQ = REPLY   the calls of each core, in order of cores, with the
                      replies that its thread had
  cC! REQ = REPLY     after the vm and file lines: all calls in the order in
                      which they took effect

A flush or a review writes no line. No certificate is needed. This is proved,
however the threads take turns: a plain page map gives the replies, and each
core's calls are those of its own lines, in their order. Notes tell more, each
step, and have to be certified run by run.

A core that can't begin a task stops, and its error is reported, with nothing
on standard output. If several cores stop, the error of the lowest-numbered
core is printed:

  live V1   it has begun its share of calls
  live V2   of the 2^32 steps that it may note, fewer than three are left for
            a call, or none for a flush or a review
  live V3   no memory to begin
  live V4   the shared machine has begun CALLS calls, or can make no more steps

Examples:
  radixvm live --certify examples/threads.script
  radixvm live --one-machine examples/shared.script

Status: 0; 1 if notes are refused; 2 for a bad script or bad arguments; 3 if
reading, writing or memory failed, or a core stopped.
";

/// What `import` reads and writes.
pub const IMPORT: &str = "\
import reads a log that strace wrote of a program, and writes a trace of what
the program asked of its address space.

Usage: radixvm import [--lackey | --all DIR |
                      [--replies] [--pid N] [--one-process]
                      [--maps FILE] [--from-empty]] [--brief] [FILE..]

  strace -f -tt -T -y -o LOG -e trace=memory,process PROGRAM
  radixvm import LOG | radixvm run
  radixvm import --replies LOG | radixvm audit --any-place

Options:
  --replies      writes calls with their replies in place of a trace: audit
                 judges them (below)
  --pid N        the process of thread N. Without it, the one with the most
                 requests: if there are several, standard error lists them,
                 each with the program that it began last
  --one-process  threads of unknown creation are of one process. strace -f -p N
                 leaves such logs; without it each is a process
  --all DIR      writes a trace of each process to the folder DIR. NUMBER.trace
                 is what --pid writes for it; a process without requests has
                 none. The folder is made. With none of the other options
  --maps FILE    a copy of /proc/PID/maps, as it was where the trace begins: at
                 the log's first line or, if the log has an execve of the
                 process, right after it
  --from-empty   the trace begins with nothing mapped; without effect where
                 --maps or an execve says what is
  --lackey       LOG is one of valgrind's lackey. It has all accesses of memory
                 (below). With none of the other options
  --brief        says only where an error is, and what it is

Logs. Give strace -o FILE: a terminal's lines have no number while one thread
is followed. They are read if that shows its number later, or is alone.
Lines with -t, -tt, -ttt, -r, -T, -i, -n, -Y, -X raw and -X verbose are read.

Several FILEs are one log. strace -ff writes one for each thread, LOG.NUMBER:
each line is of the thread with the number after its file's last dot, if no
line of the file names a thread; so it is in a FILE alone. Give strace -ttt -T,
too: lines go in the order in which their calls act, those that map as they
return, and munmap as it begins. Refused, with status 2, are several FILEs of
which some call doesn't tell that with microseconds, or tells an earlier time
than a line above it: where it belongs isn't known. Times of strace -t and -tt
have no date, so midnight may be between two of them. Calls of two threads that
overlap and change the same pages may have acted in another order. Lines that
say nothing, before the first time of their file, come first, in the order of
the FILEs, and standard error says how many there are.

Refused, with status 2: a log that asks for nothing; one that doesn't say what
was mapped when the process began, or how another process began, which may be a
thread of it; one of strace -z or -Z, whose calls are out of order; and one
with lines without a number that may be of several threads.

Processes. A forked process begins with its parent's mappings. One of vfork, or
of clone with CLONE_VM, maps and unmaps for its parent, too, until it begins a
program. A process has its last line as its end.

Calls. A line of mmap, munmap or mprotect is kept with its numbers. A mapping
is put where the kernel placed it, so it has the flag f, and its address is the
one that the kernel answered. Each thread is a core, in the order of their
first requests; the 65th shares core 0 with the first.

A call that is in two lines, <unfinished ...> and resumed, acts where it
returns, but munmap where it begins: its pages are gone before it returns, and
others may be mapped there before its second line. One that never returns in
the log isn't read.

Changed, since a trace has no such lines:
  brk            mmap or munmap of the pages between the heap's old end and
                 new; the first brk only says where the heap ends
  mremap         munmap and mmap, or one of them if it stays in place, or with
                 MREMAP_DONTUNMAP mmaps: each part of the new pages has the
                 rights, the sharing and the file that it had, and more pages
                 are as the last was; bytes of private pages are lost. Before
                 such an munmap is # moved ADDR LEN ADDR LEN
  madvise        with MADV_DONTNEED, of pages that lines map: mmap of the
                 private ones, as they were mapped
  a file         the first 16 files are files of the trace, by their paths, or
                 without -y by their descriptors. A mapping of another file, or
                 past a file's first 1048576 bytes, is one of zero bytes. What
                 files hold isn't in a log: each can be read and written, is as
                 long as its mappings reach, and begins with its number.
                 Comments have names: # file N NAME is before a file's line.
                 # anon ADDR LEN OFF NAME is before a mapping of zero bytes
                 that the file NAME, from OFF on, should back. A name has
                 \\xNN for a byte that isn't visible ASCII, and for \\, and ..
                 after its first 200 bytes, or 180 with a range
  pkey_mprotect  mprotect
  shmat, shmdt   mmap of a shared file and munmap, if a shmget of the process
                 says how many bytes the memory has

Left out: calls that failed, other calls and events, other processes (fork, and
clone without CLONE_THREAD), what a process did before execve, and all else
that isn't read. Calls that change the address space and can't be kept are
lost, and counted by their names: shmat and shmdt of memory whose size isn't
known, other madvise that drops bytes (MADV_FREE, MADV_REMOVE),
remap_file_pages, mmap with MAP_GROWSDOWN or MAP_HUGETLB, userfaultfd,
io_setup, io_destroy and map_shadow_stack. Standard error says how many lines
became what, and each line is counted once.

What was mapped before the log begins isn't known without --maps: an mprotect
of such pages is kept, and run answers enomem. Pages of the program's own file,
its first stack and vdso are such pages, which execve maps. With --maps each
line of the list is a mapping of core 0 before the log's first, with its
numbers: of the file, if its path is as strace -y shows it the log's file too,
or of zero bytes if there is no path ([heap], [stack]). Left out: the kernel's
own pages ([vvar], [vdso]), and what isn't from 4096 up to 2^47 ([vsyscall]).
[heap] says where the heap ends.

The trace has 256 frames, for lines with accesses that you may add. One of more
than 1048576 requests needs run --long.

Replies (--replies). Each call of the process that maps, unmaps or changes
rights is a line cC! REQ = REPLY. It has what the program asked for and what
the kernel answered; a mapping of a file is one of zero bytes. audit
--any-place judges them. If the log has times, or a call is in two lines, a
line is BEGIN END cC! REQ = REPLY. Then audit --overlapping --any-place judges
it. With strace -ttt -T the numbers are nanoseconds, and else each line of the
log has four. Standard error says which it is. brk and mremap are mmap and
munmap, of pages rw-, since no verdict depends on rights. An mremap that moves
a mapping is both, each in one half of its time.
Failed calls are there where the mappings alone decide: EINVAL of munmap,
mprotect and mmap of no file, and ENOMEM of mprotect. Left out are, besides
what a trace leaves out, shmat, shmdt, madvise, and mprotect of pages that no
line maps, as those that execve maps. With --maps the list's mappings come
first. Several FILEs need strace -ttt -T. A message of strace's within a line
is refused.

A log with accesses is made and read so:

  valgrind --tool=lackey --trace-mem=yes --trace-syscalls=yes --log-file=LOG \\
    PROGRAM
  radixvm import --lackey LOG | radixvm run --long --summary

An access is a call of its first byte, I a fetch, L a load, S a store of 0, and
M a load and a store; and one of the next page's first byte if it goes on
there. Calls are kept, changed or left out as those of strace, and files known
by descriptors. If a page is accessed that no line has mapped, it was there
before the log: import maps it, rwx, right before that access. All is core 0's,
since an access names neither thread nor process, and there are 65536 frames.

Example:
  radixvm import examples/real/heap.log | radixvm maps

Status: 0; 2 for bad arguments, or if nothing was kept: of a log of strace the
first line is then shown that isn't read; 3 if reading, writing or memory
failed. The log, what is taken of it and the trace are held in memory. On a
terminal, standard error shows how far a log of 400000 lines or more has come.
";

/// What `audit` reads and writes.
pub const AUDIT: &str = "\
audit judges the replies of another address space, a kernel's or a simulator's:
whether a plain page map gives them.

Usage: radixvm audit [--overlapping [--kernel [--moving] |
                                     [--strict] [--given IN] [--order OUT]] |
                     [--strict] [--all]] [--any-place] [--brief] [FILE]

Options:
  --any-place    an mmap without f may have any place, or be enomem. Its pages
                 must be valid and free; POSIX leaves the place to a system
  --strict       noframe, nomemory, and enomem despite room are illegal; with
                 --overlapping, each call has one moment, and --kernel isn't
                 tried where that fails
  --all          goes on after a wrong reply, and writes each
  --overlapping  the text is a history: calls with the times of their begin and
                 end (invocation and response)
  --kernel       by the rule that kernels keep: changes are whole, and accesses
                 may use stale translations of the same frame
  --moving       threads may move between cores
  --order OUT    writes the order that was found to the file OUT
  --given IN     judges by the order in the file IN, and searches none
  --brief        says only where an error is, and what it is

Calls with their replies, in the order in which they happened. First come a vm
line and file lines, as in a trace (help trace). Then each line is one that run
--echo writes:

  cC! REQ = REPLY      core C made this call, and had this reply
  cC! REQ = wait ..    it has no reply yet; cC call REQ = step says so, too
  cC finish = REPLY    core C's call that waited has it; so does cC go = REPLY
  cC copy ADDR         the private page of this address gets its copy now, for
                       a store of core C that may come later

REQ is as in help trace, REPLY as in help outcomes. All other lines that run
--echo writes are taken, and say nothing of replies. A line has at most 512
bytes. Calls take effect in the order of their replies. If a reply comes while
another core's call is waiting, the calls overlap. From there on audit never
says illegal: it searches for an order, as --overlapping does, and says legal
or undecided.

It writes one of these, and after the last two the mappings around the request,
as help maps says, at most four. Standard error shows the request that was
judged, with its line's number:

  legal CALLS          so many calls, and each reply is the plain page map's
  legal CALLS, N without memory
                       N of them had noframe or nomemory, or enomem as mmaps
                       without f (with --any-place): any system may reply so,
                       and they change nothing
  illegal N: replied REPLY, due REPLY
                       line N's reply is wrong, and what is right; the lines
                       before it are legal, and none after it is read
  undecided N: replied REPLY, due REPLY
                       it is wrong in this order, and no other order was found
  illegal N: copied, due no copy
                       line N copies a page that isn't private, shows no bytes
                       of its file, or may not be stored to; or undecided N: ..

A store that replied nomemory may still have copied its private page. From
there on audit says undecided instead of illegal.

With --all, after a wrong reply to an mmap without f, the mapping is put where
the reply says, if those pages are free. After any other wrong reply the right
call is made. It writes legal .. if none is wrong in the order of the lines.

The right place of an mmap without f is its hint, if its pages are free, or
else the lowest gap in the core's window. audit ignores the sizes on the vm
line: a core may have any number from 0 to 63, also above CORES.

Histories (--overlapping). After the vm and file lines, and in any order, come
lines

  BEGIN END cC! REQ = REPLY
                       the call began after BEGIN and ended before END, two
                       numbers below 2^64 of one clock

A call that ended before another began (END below BEGIN) takes effect before
it; otherwise any of them may be first. Calls of one core may not overlap. A
call that has no reply yet has no line. Instead there may be lines of run
--echo, as above: a call is then under way from the line in which it begins to
that of its reply. One that waits at the end may have taken effect or not, and
isn't counted. The verdict, by linearizability, is one of these:

  legal CALLS          some order of the calls (a linearization) has exactly
                       these replies
  no order N: replied REPLY
                       no order of the calls gives these replies. Line N is
                       where the search stopped: it found no order up to the
                       end of that call. Then come the lines of a few calls
                       that have no order by themselves, each with its number:
                       the first maps or unmaps some pages, and the others
                       change or read them. If one maps a file, they have none
                       whatever bytes the file has. If no such calls are found,
                       all orders of at most 64 calls are tried, up to 10,000
                       beginnings; then come the mappings that the first calls
                       left, and the lines of all others, if at most 12. If a
                       call still waits at the end of the text, no order is not
                       printed, only legal or undecided
  legal by --kernel    after no order and its lines: the rule that kernels keep
                       (below) permits the calls; an order by it was checked
  legal by --kernel --moving: did threads move?
                       the same, if threads may move between cores
  undecided N          the search found no order up to the end of line N's
                       call, or met its limit there: 300,000 configurations.
                       There may be an order

An order is a text for audit: a line cC copy ADDR says that a store's page gets
its copy there, before the store. What is found or given is checked, so legal
rests on no search. If the order of --given isn't one, the verdict is
undecided.

--kernel. Each mmap, munmap and mprotect takes effect whole, at one moment: the
list of mappings has a lock. Until a munmap or mprotect ends, or another call
changes one of its pages, an access may still use the old translation. It is
served by the old rights, on the old frame. After mprotect a store stays there;
after munmap it is lost, but for a file's bytes. Refusals come from the list. A
fetch may also be refused by an old translation, where the processor decides.
mprotect may come to a page later than to others, until an access sees it new.
A refused mprotect may have changed the pages before the first that it may not
change; its error is that of some page. Once the list has refused a core such
an access, later ones of that kind aren't late on that core. --moving permits
them. legal is printed only if an order was found and checked. no order is
printed only if the calls have none at one moment when accesses that may be
late are left out, and if a store may be, all bytes. Then come a few calls that
show it. A refused mprotect of several pages leaves that undecided.

--by-pages and --loose, of earlier versions, are gone: --kernel is in their
place.

Examples:
  radixvm audit examples/audit.replies
  printf '%s\\n' 'vm 1 4' 'c0! mmap 0x10000 4096 rw- pfa = 0x10000' \\
    'c0! store 0x10004 41 = done' 'c0! load 0x10004 = 40' | radixvm audit
The second writes illegal 4: replied 40, due 41, and 0x10000-0x11000 rw- anon.

Status: 0 if all replies are legal; 1 if one isn't, or the calls have no order;
2 for a bad text or bad arguments; 3 if reading, writing or memory failed; 4 if
it is undecided; 5 if the calls have no order, but are legal by --kernel. After
an error (help errors) nothing is written. The text is held in memory.
";

/// What `litmus` reads and writes.
pub const LITMUS: &str = "\
litmus reads a few calls of several cores, and lists every combination of
replies (an outcome) that some schedule gives. The cores' steps may interleave
in any way, with walks, evictions, takes, flushes, reviews and folds between
them. No schedule gives another outcome, except with noframe or nomemory: that
is proved.

Usage: radixvm litmus [--to-c | [--limit N] [--list | --witness N |
                      --picture N | --observed COUNTS | --live N]]
                      [--brief] [FILE]

Options:
  --list             writes only the outcomes, one in a line. Tabs are between
                     the replies, finals and mappings
  --witness N        writes a trace for run that has the Nth outcome
  --picture N        draws that trace (help picture)
  --observed COUNTS  compares counts of another system with the list
  --live N           runs the test N times on threads, and counts
  --to-c             writes a C program that runs the test on a kernel
  --limit N          looks at N points of interleavings (1,000,000)
  --brief            says only where an error is, and what it is

A test has these lines:

  vm, file          as in help trace
  events            lines of a trace, the opening: they come first, in this
                    order, and leave no call open
  together          the calls begin here. Without this line there is no opening
  cC! REQ           a call of core C, after those of C above it. An mmap needs
                    the flag f. Only the order of each core's lines counts
  final ADDR        a load of this address at the end is part of an outcome
  final maps        so is the list of all mappings at the end
  exists COND       COND holds of some outcome
  never COND        it holds of none
  forall COND       it holds of each

final lines and clauses come anywhere after together. COND is one of these, or
several, joined by the words and, or; and binds closer:

  cC.N = REPLY      core C's call N, counted from 1, has this reply
  cC.N != REPLY     it has another one
  ADDR = BYTE       this address, of a final line, shows this byte at the end

Output: outcomes N, and a line for each outcome in the order of their texts:
K: c0 done; c1 1, 2 says that core 0's call replied done, and core 1's two
replied 1 and 2. Then comes ; ADDR BYTE for each final address, and for final
maps ; maps with the mappings, each as maps writes it, divided by | or nothing:
; maps 0x10000-0x11000 r-- anon. (open) after an outcome says that no run was
found that has it. Then comes one of these:

  exact             each outcome has a run, and no other can come, except with
                    noframe or nomemory
  open              one is open; no other can come, as above
  stopped at the limit of N points
                    there may be others; see --limit
  noframe is left out
                    before exact or open: frames may be too few for all calls,
                    and outcomes with noframe aren't looked for
  maps are left out
                    the same, of --live for a test that has final maps

Outcomes with nomemory aren't listed either, and only runs count in which every
call is answered. Then each clause is written again with : holds, : fails or
: open. If noframe is left out, a clause that names it or nomemory is open.
For each clause there is also a line as herd7 prints it: Observation NAME, then
Always, Sometimes or Never, then how many outcomes satisfy COND and how many
don't.

--observed reads lines N: OUTCOME, how often each outcome came, in the words of
the list, as in 12: c0 done; c1 1, 2. Empty lines and lines with # in front are
skipped. It writes the counts again, and (outside) after an outcome that isn't
listed. One with noframe or nomemory is never listed, nor one without mappings,
if the test has final maps. Then comes exact, open or what else ends the list,
or nothing was observed, if nothing was counted. The clauses aren't looked at.

--live runs the opening in order, then each core's calls on a thread of its
own, and then loads of the final addresses, each time in a new space. Each run
is certified, as live --certify does it. It writes how often each outcome came,
as --observed does, without mappings. An outcome that isn't listed would be an
error of radixvm. The opening has whole calls, flushes and reviews then.

--to-c writes a program with POSIX threads, each core on a thread, that writes
such counts. The opening has whole calls, flushes and reviews then; addresses
are below 2 GiB; fetch and final maps can't be made:

  radixvm litmus --to-c TEST > test.c && cc -O2 -pthread test.c
  ./a.out RUNS | radixvm litmus --observed /dev/stdin TEST

Examples:
  radixvm litmus examples/litmus/unmap-load.litmus
  printf '%s\\n' 'vm 2 4' 'c0! mmap 0x10000 4096 rw- pfa' together \\
    'c0! store 0x10000 1' 'c1! load 0x10000' 'never c1.1 = 2' | radixvm litmus
The second writes 1: c0 done; c1 0 and 2: c0 done; c1 1, exact, and that the
clause holds.

Status: 0 if all clauses hold, 1 if one fails, 4 if one is open or the limit
was met. With counts: 1 if an outcome isn't listed, but 4 if the limit was met;
4 also if nothing was counted. 2 for a bad text or bad arguments; then nothing
is written. 3 if the system failed, a run had noframe or nomemory, or a call
couldn't begin.
";

/// What `picture` shows.
pub const PICTURE: &str = "\
picture reads a trace, and draws what happened as one SVG text.

Usage: radixvm picture [--history | --lives |
                        [--steps] [--from N] [--to N]]
                       [--brief] [FILE]

Options:
  --from N   the first line that is shown: 1 if it is left out
  --to N     the last one, not below N of --from. Lines after it aren't looked
             at
  --steps    each step has a column, in place of each line. Of a call that goes
             on by itself (cC! REQ) each of its steps has one. --from and --to
             name steps
  --lives    draws the lifetimes of mappings over the whole trace. It may ask
             for up to 2^40 calls. Not with --steps, --from or --to
  --history  draws a history of calls in place of a trace: lines that audit
             --overlapping reads. With none of the other options
  --brief    says only where an error is, and what it is

Each line that does something has a column, under its number. Lines whose steps
are those of one call, with no other step between, share one. Each core that
takes part has a lane. In it are

  bars     a call each, from its begin to its answer, with its request and the
           reply. A call that waits says for what, in that column. A call that
           isn't answered goes on to the last column, and one that began before
           the first column begins there
  marks    takes, walks, evictions, flushes, reviews, and a core that looked
           for a message and had none
  arrows   from where a call sends this core a message to drop translations to
           the first take; and back to it from the second
  hatched  from the column in which a core is sent a message to that of its
           second take: until then it may use the stale translations

Below, a row shows pages that are mapped and unmapped together. Its colour says
what the protection permits, from the column that makes the change. What was
mapped before the first column isn't shown. Point at a bar, a mark or a stretch
to read what it is: of pages their addresses, protection and BACK (help maps),
and the file's name, if a comment # file N NAME comes right before the file's
line, as import writes it. 2000 columns or 2000 steps are shown at most;
standard error says so then.

With --lives neighbouring pages share a row if they are alike in all steps. A
rectangle goes from each step in which its pages are mapped, or get another
protection, to the first that changes them. Next to the rows, up to 63 of them,
are their addresses and BACK, of the last rectangle. Colours show the
protection, and shades what backs them. 2000 rectangles are shown at most, from
the lowest pages on, and the picture says so.

With --history each core that has calls has a lane, and each call a bar from
its BEGIN to its END, to scale: changes of mappings in one colour, accesses in
another. What audit answered may follow the history, or be alone: the calls
that it shows are lit, and all others faint. Below the bar of a lit call are
its line's number, its request and its reply, of the first 60 of each core.
Without an answer all are lit, and over 2000 then have no words:

  radixvm audit --overlapping HISTORY > ANSWER
  cat HISTORY ANSWER | radixvm picture --history > history.svg

A line may be a note (help notes). Its ticket and its outcome are left out, and
the lines count in the order of the text, so what threads did has a picture:

  radixvm live SCRIPT | radixvm picture

Examples:
  radixvm picture examples/shootdown.trace > shootdown.svg
  radixvm picture --lives examples/real/heap.trace > heap.svg

Status: 0; 2 for a bad text or bad arguments, a trace with fewer lines than
--from, or a history without calls; 3 if reading, writing or memory failed.
After an error there is no picture. The text is held in memory.
";
