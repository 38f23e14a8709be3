//! The fixed texts and sizes of a trace data file: how a kernel describes its pages, its entries and its workqueue events.

/// The length of a page.
pub(crate) const PAGE: usize = 4096;

/// The length of what stands on a page before the entries.
pub(crate) const PAGE_HEAD: usize = 16;

/// So many bytes stay free behind the entries of a page.
pub(crate) const SPARE: usize = 20;

/// All process identifiers of tasks are below this.
pub(crate) const PIDS: usize = 16_676;

/// What the file begins with: what it is, and version 6.
pub(crate) const MAGIC: &str = "\x17\x08\x44tracing6\0";

/// The name of the layout of pages.
pub(crate) const HEADER_PAGE_NAME: &str = "header_page\0";

/// The name of the layout of entries.
pub(crate) const HEADER_EVENT_NAME: &str = "header_event\0";

/// The name of the system of the events.
pub(crate) const WORKQUEUE: &str = "workqueue\0";

/// What stands before the places of the CPUs' pages.
pub(crate) const FLYRECORD: &str = "flyrecord\0";

/// The layout of pages.
pub(crate) const HEADER_PAGE: &str = "\tfield: u64 timestamp;\toffset:0;\tsize:8;\tsigned:0;
\tfield: local_t commit;\toffset:8;\tsize:8;\tsigned:1;
\tfield: int overwrite;\toffset:8;\tsize:1;\tsigned:1;
\tfield: char data;\toffset:16;\tsize:4080;\tsigned:0;
";

/// The layout of entries.
pub(crate) const HEADER_EVENT: &str = "# compressed entry header
\ttype_len    :    5 bits
\ttime_delta  :   27 bits
\tarray       :   32 bits

\tpadding     : type == 29
\ttime_extend : type == 30
\ttime_stamp : type == 31
\tdata max type_len  == 28
";

/// `workqueue_queue_work`: a work is queued.
pub(crate) const QUEUE_WORK: &str = "name: workqueue_queue_work
ID: 101
format:
\tfield:unsigned short common_type;\toffset:0;\tsize:2;\tsigned:0;
\tfield:unsigned char common_flags;\toffset:2;\tsize:1;\tsigned:0;
\tfield:unsigned char common_preempt_count;\toffset:3;\tsize:1;\tsigned:0;
\tfield:int common_pid;\toffset:4;\tsize:4;\tsigned:1;

\tfield:void * work;\toffset:8;\tsize:8;\tsigned:0;
\tfield:void * function;\toffset:16;\tsize:8;\tsigned:0;
\tfield:__data_loc char[] workqueue;\toffset:24;\tsize:4;\tsigned:0;
\tfield:int req_cpu;\toffset:28;\tsize:4;\tsigned:1;
\tfield:int cpu;\toffset:32;\tsize:4;\tsigned:1;

print fmt: \"work struct=%p function=%ps workqueue=%s req_cpu=%d cpu=%d\", REC->work, REC->function, __get_str(workqueue), REC->req_cpu, REC->cpu
";

/// `workqueue_activate_work`: a work comes into its pool's list.
pub(crate) const ACTIVATE_WORK: &str = "name: workqueue_activate_work
ID: 102
format:
\tfield:unsigned short common_type;\toffset:0;\tsize:2;\tsigned:0;
\tfield:unsigned char common_flags;\toffset:2;\tsize:1;\tsigned:0;
\tfield:unsigned char common_preempt_count;\toffset:3;\tsize:1;\tsigned:0;
\tfield:int common_pid;\toffset:4;\tsize:4;\tsigned:1;

\tfield:void * work;\toffset:8;\tsize:8;\tsigned:0;

print fmt: \"work struct %p\", REC->work
";

/// `workqueue_execute_start`: a worker begins to execute a work.
pub(crate) const EXECUTE_START: &str = "name: workqueue_execute_start
ID: 103
format:
\tfield:unsigned short common_type;\toffset:0;\tsize:2;\tsigned:0;
\tfield:unsigned char common_flags;\toffset:2;\tsize:1;\tsigned:0;
\tfield:unsigned char common_preempt_count;\toffset:3;\tsize:1;\tsigned:0;
\tfield:int common_pid;\toffset:4;\tsize:4;\tsigned:1;

\tfield:void * work;\toffset:8;\tsize:8;\tsigned:0;
\tfield:void * function;\toffset:16;\tsize:8;\tsigned:0;

print fmt: \"work struct %p: function %ps\", REC->work, REC->function
";

/// `workqueue_execute_end`: a worker is done with a work.
pub(crate) const EXECUTE_END: &str = "name: workqueue_execute_end
ID: 104
format:
\tfield:unsigned short common_type;\toffset:0;\tsize:2;\tsigned:0;
\tfield:unsigned char common_flags;\toffset:2;\tsize:1;\tsigned:0;
\tfield:unsigned char common_preempt_count;\toffset:3;\tsize:1;\tsigned:0;
\tfield:int common_pid;\toffset:4;\tsize:4;\tsigned:1;

\tfield:void * work;\toffset:8;\tsize:8;\tsigned:0;
\tfield:void * function;\toffset:16;\tsize:8;\tsigned:0;

print fmt: \"work struct %p: function %ps\", REC->work, REC->function
";
