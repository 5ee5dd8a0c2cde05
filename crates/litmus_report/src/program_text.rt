//! The part of a litmus test's program for a kernel that is the same for each test.

/// What stands in front of the files.
pub const FRONT: &str = "\
// A litmus test as a program for a kernel with POSIX threads: one thread a core. Build it with cc -O2 -pthread, or c++.
// Usage: a.out [ROUNDS] [-s ROUNDS] [-r RUNS] [--cpus LIST]: RUNS runs of ROUNDS rounds, 1 and 10000 if left out. Core N is on the Nth processor
// of LIST, as 0,2,3, or of those that the program may use. It writes COUNT: OUTCOME, a line for each outcome that came about, for radixvm litmus
// --observed: at its end, or at SIGINT; and on standard error, those so far, every ten seconds.
#ifndef _GNU_SOURCE
#define _GNU_SOURCE
#endif
#include <errno.h>
#include <fcntl.h>
#include <pthread.h>
#include <sched.h>
#include <setjmp.h>
#include <signal.h>
#include <stdint.h>
#include <stdio.h>
#include <stdlib.h>
#include <string.h>
#include <sys/mman.h>
#include <time.h>
#include <unistd.h>

struct file { const char *mode; unsigned long len; int seed; };
struct call { int core; const char *request; };
struct op { int core, kind, prot, flags, file; unsigned long addr, len, off; };
enum { MMAP, MUNMAP, MPROTECT, LOAD, STORE };
enum { CORES = 64, CALLS = 4096, TEXT = 65536, WAYS = 65536 };

static struct op ops[2][CALLS];
static int many[2], fds[16], own[16], file_count, uses[CORES], threads, final_count;
static const struct file *all_files;
static const unsigned long *all_finals;
static char replies[CALLS][24], shown[CALLS][24], *ways[WAYS];
static long counts[WAYS], way_count, rounds = 10000, runs = 1, last_round, rounds_done;
static int cpus[CORES], cpu_count, asked_to_end;
static int turn, arrived[3];
static long round_of[3], shown_at;
static __thread sigjmp_buf back;
#define GET(place) __atomic_load_n(place, __ATOMIC_SEQ_CST)
#define SET(place, value) __atomic_store_n(place, value, __ATOMIC_SEQ_CST)

static void stop(const char *why) { fprintf(stderr, \"%s\\n\", why); exit(2); }

static void on_fault(int number, siginfo_t *info, void *context) {
    (void)context;
    siglongjmp(back, number == SIGBUS ? 3 : info->si_code == SEGV_ACCERR ? 2 : 1);
}

static int rights(const char *word) {
    return (strchr(word, 'r') ? PROT_READ : 0) | (strchr(word, 'w') ? PROT_WRITE : 0) | (strchr(word, 'x') ? PROT_EXEC : 0);
}

static void on_interrupt(int number) { SET(&asked_to_end, number); }

static struct op op_of(int core, int kind, unsigned long addr, unsigned long len, int prot) {
    struct op o = {core, kind, prot, 0, 0, addr, len, 0};
    return o;
}

static struct op read_call(const struct call *call) {
    struct op o = op_of(call->core, LOAD, 0, 0, 0);
    char name[16], prot[8], flags[8];
    unsigned long a = 0, b = 0, c = 0;
    int file = 0;
    const char *words = call->request;
    sscanf(words, \"%15s\", name);
    if (!strcmp(name, \"mmap\") && sscanf(words, \"%*s %lx %lx %7s %7s %d %lx\", &a, &b, prot, flags, &file, &c) == 6) {
        o = op_of(call->core, MMAP, a, b, rights(prot));
        o.file = strchr(flags, 'a') ? -1 : file, o.off = c;
        o.flags = (strchr(flags, 'p') ? MAP_PRIVATE : 0) | (strchr(flags, 's') ? MAP_SHARED : 0)
            | (strchr(flags, 'f') ? MAP_FIXED : 0) | (strchr(flags, 'a') ? MAP_ANONYMOUS : 0);
    } else if (!strcmp(name, \"munmap\") && sscanf(words, \"%*s %lx %lx\", &a, &b) == 2) o = op_of(call->core, MUNMAP, a, b, 0);
    else if (!strcmp(name, \"mprotect\") && sscanf(words, \"%*s %lx %lx %7s\", &a, &b, prot) == 3) o = op_of(call->core, MPROTECT, a, b, rights(prot));
    else if (!strcmp(name, \"load\") && sscanf(words, \"%*s %lx\", &a) == 1) o = op_of(call->core, LOAD, a, 1, 0);
    else if (!strcmp(name, \"store\") && sscanf(words, \"%*s %lx %lu\", &a, &b) == 2) o = op_of(call->core, STORE, a, 1, (int)b);
    else stop(\"a request that this program can't make\");
    if (o.addr + o.len > 1ul << 31) stop(\"an address above 2 GiB, where the program itself may be\");
    return o;
}

static const char *refusal(int error) {
    return error == EINVAL ? \"einval\" : error == ENOMEM ? \"enomem\" : error == EACCES ? \"eacces\" : error == EBADF ? \"ebadf\"
        : error == EOVERFLOW ? \"eoverflow\" : \"another error\";
}

// Makes a call, and writes its reply.
static void make_call(const struct op *o, char *reply) {
    static const char *const faults[] = {\"\", \"segv maperr\", \"segv accerr\", \"bus\"};
    volatile unsigned char *at = (volatile unsigned char *)o->addr;
    void *place = (void *)o->addr;
    long done = 0;
    if (o->kind == LOAD || o->kind == STORE) {
        int why = sigsetjmp(back, 0);
        if (why) strcpy(reply, faults[why]);
        else if (o->kind == LOAD) sprintf(reply, \"%d\", *at);
        else { *at = (unsigned char)o->prot; strcpy(reply, \"done\"); }
        return;
    }
    if (o->kind == MMAP) {
        int fd = o->file < 0 ? -1 : o->file < file_count ? fds[o->file] : -1;
        void *got = mmap(place, o->len, o->prot, o->flags, fd, (off_t)o->off);
        if (got == MAP_FAILED) strcpy(reply, refusal(errno));
        else sprintf(reply, \"0x%lx\", (unsigned long)got);
        return;
    }
    done = o->kind == MUNMAP ? munmap(place, o->len) : mprotect(place, o->len, o->prot);
    strcpy(reply, done ? refusal(errno) : \"done\");
}

static void wait_until(long *number, long least) {
    for (long tries = 0; GET(number) < least; tries++) if (tries > 20000) sched_yield();
}

// All threads meet.
static void meet(int place, long round) {
    if (__atomic_add_fetch(&arrived[place], 1, __ATOMIC_SEQ_CST) == threads) {
        SET(&arrived[place], 0);
        SET(&round_of[place], round);
    }
    wait_until(&round_of[place], round);
}

static void restore_files(void) {
    for (int n = 0; n < file_count; n++)
        for (unsigned long i = 0; i < all_files[n].len; i++) {
            unsigned char byte = (unsigned char)(all_files[n].seed + i);
            if (pwrite(own[n], &byte, 1, (off_t)i) != 1) stop(\"a file that can't be written\");
        }
}

static void unmap_all(void) {
    for (int list = 0; list < 2; list++)
        for (int k = 0; k < many[list]; k++)
            if (ops[list][k].kind == MMAP) munmap((void *)ops[list][k].addr, ops[list][k].len);
}

static void count_outcome(void) {
    static char text[TEXT];
    char *end = text;
    long way = 0;
    for (int k = 0; k < many[1]; k++) {
        if (k && ops[1][k].core == ops[1][k - 1].core) end += sprintf(end, \", \");
        else end += sprintf(end, \"%sc%d \", k ? \"; \" : \"\", ops[1][k].core);
        end += sprintf(end, \"%s\", replies[k]);
    }
    for (int k = 0; k < final_count; k++) end += sprintf(end, \"; 0x%lx %s\", all_finals[k], shown[k]);
    while (way < way_count && strcmp(ways[way], text)) way++;
    if (way == WAYS) stop(\"too many outcomes\");
    if (way == way_count) ways[way_count++] = strdup(text);
    counts[way]++;
}

static void show_counts(FILE *file) { for (long way = 0; way < way_count; way++) fprintf(file, \"%ld: %s\\n\", counts[way], ways[way]); }

// Between two rounds, when no other thread runs.
static void end_round(long round) {
    long now = (long)time(0);
    rounds_done++;
    if (GET(&asked_to_end)) SET(&last_round, round), runs = 0;
    if (now >= shown_at + 10) fprintf(stderr, \"after %ld rounds:\\n\", rounds_done), show_counts(stderr), shown_at = now;
}

static void *run_core(void *argument) {
    int core = (int)(intptr_t)argument;
    int leads = 0;
    uint64_t seed = 88172645463325252u + 7919u * (unsigned)core;
    cpu_set_t cpu;
    CPU_ZERO(&cpu);
    CPU_SET((size_t)cpus[core % cpu_count], &cpu);
    if (pthread_setaffinity_np(pthread_self(), sizeof cpu, &cpu)) stop(\"a processor that this program may not use\");
    while (!uses[leads]) leads++;
    for (long round = 1; round <= GET(&last_round); round++) {
        char reply[24];
        for (int k = 0; k < many[0]; k++)
            if (ops[0][k].core == core) {
                for (long tries = 0; GET(&turn) != k; tries++) if (tries > 20000) sched_yield();
                make_call(&ops[0][k], reply);
                SET(&turn, k + 1);
            }
        meet(0, round);
        seed ^= seed << 13, seed ^= seed >> 7, seed ^= seed << 17;
        for (long wait = (long)(seed >> 20) & ((1l << seed % 19) - 1); wait; wait--) __asm__ volatile(\"\" : : : \"memory\");
        for (int k = 0; k < many[1]; k++) if (ops[1][k].core == core) make_call(&ops[1][k], replies[k]);
        meet(1, round);
        if (core == leads) {
            for (int k = 0; k < final_count; k++) {
                struct op load = op_of(core, LOAD, all_finals[k], 1, 0);
                make_call(&load, shown[k]);
            }
            count_outcome();
            unmap_all();
            restore_files();
            SET(&turn, 0);
            end_round(round);
        }
        meet(2, round);
    }
    return 0;
}

static void read_calls(int list, const struct call *calls) {
    for (; calls->core >= 0; calls++) {
        if (many[list] == CALLS) stop(\"too many calls\");
        ops[list][many[list]++] = read_call(calls);
        if (!uses[calls->core]++) threads++;
    }
}

static void open_files(const struct file *files) {
    all_files = files;
    for (; files->mode; files++) {
        char name[64];
        int n = file_count++, fd = memfd_create(\"litmus\", 0);
        if (fd < 0 || ftruncate(fd, (off_t)files->len)) stop(\"a file that can't be made\");
        own[n] = fds[n] = fd;
        snprintf(name, sizeof name, \"/proc/self/fd/%d\", fd);
        if (strcmp(files->mode, \"rw\")) fds[n] = open(name, *files->mode == 'r' ? O_RDONLY : O_WRONLY);
        if (fds[n] < 0) stop(\"a file that can't be opened\");
    }
    restore_files();
}

static void read_cpus(const char *list) {
    cpu_set_t may;
    if (!list && sched_getaffinity(0, sizeof may, &may)) stop(\"processors that can't be asked for\");
    for (int cpu = 0; !list && cpu < CPU_SETSIZE; cpu++) if (CPU_ISSET((size_t)cpu, &may) && cpu_count < CORES) cpus[cpu_count++] = cpu;
    for (char *end; list && *list; list = *end ? end + 1 : end) {
        if (cpu_count < CORES) cpus[cpu_count++] = (int)strtol(list, &end, 10);
        if (cpu_count == CORES || end == list || (*end && *end != ',')) stop(\"a list of processors is as 0,2,3\");
    }
}

static void read_words(int words, char **word) {
    const char *list = 0;
    for (int k = 1; k < words; k++) {
        if (*word[k] >= '0' && *word[k] <= '9') rounds = atol(word[k]);
        else if (k + 1 == words) stop(\"an option without its value\");
        else if (!strcmp(word[k++], \"-s\")) rounds = atol(word[k]);
        else if (!strcmp(word[k - 1], \"-r\")) runs = atol(word[k]);
        else if (!strcmp(word[k - 1], \"--cpus\")) list = word[k];
        else stop(\"usage: a.out [ROUNDS] [-s ROUNDS] [-r RUNS] [--cpus LIST]\");
    }
    read_cpus(list);
}

static int run_all(int words, char **word, const struct file *files, const struct call *opening, const struct call *lists, const unsigned long *finals) {
    pthread_t thread[CORES];
    struct sigaction act;
    memset(&act, 0, sizeof act);
    act.sa_sigaction = on_fault;
    act.sa_flags = SA_SIGINFO | SA_NODEFER;
    sigaction(SIGSEGV, &act, 0);
    sigaction(SIGBUS, &act, 0);
    signal(SIGINT, on_interrupt);
    read_words(words, word);
    open_files(files);
    read_calls(0, opening);
    read_calls(1, lists);
    for (all_finals = finals; finals[final_count] != ~0ul; final_count++) {}
    shown_at = (long)time(0);
    while (runs-- > 0) {
        last_round = rounds;
        memset(round_of, 0, sizeof round_of);
        for (int core = 0; core < CORES; core++)
            if (uses[core] && pthread_create(&thread[core], 0, run_core, (void *)(intptr_t)core)) stop(\"a thread that can't be made\");
        for (int core = 0; core < CORES; core++) if (uses[core]) pthread_join(thread[core], 0);
    }
    show_counts(stdout);
    return 0;
}

static const struct file files[] = {
";

/// What stands between the files and the calls of the opening.
pub const OPENING: &str = "    {0, 0, 0}};\n\nstatic const struct call opening[] = {\n";

/// What stands between these and the calls of the lists.
pub const LISTS: &str = "    {-1, 0}};\n\nstatic const struct call lists[] = {\n";

/// What stands between these and the final addresses.
pub const FINALS: &str = "    {-1, 0}};\n\nstatic const unsigned long finals[] = {\n";

/// What stands behind these.
pub const END: &str = "    ~0ul};

int main(int words, char **word) { return run_all(words, word, files, opening, lists, finals); }
";
